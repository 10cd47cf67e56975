//! Files of one line, by their first line.
ghost use Rattle.std.specs.Prelude.{◌≡◌, ◌<◌, ◌++◌, length, MatchOption};
ghost use Rattle.pm_text.specs.Broken.{HasNoNewline};
ghost use Rattle.pm_cli.specs.steps.FirstLine.{IsFirstLine, IsTagged, HasNoTag, IsUntagged};

use pm_text::Lines;

/// The first line of a file.
#[derive(Clone, Copy)]
pub(crate) struct FirstLine<'a> {
    pub(crate) text: &'a [u8],
    // Whether nothing follows the line.
    pub(crate) is_alone: bool,
}

/// The first line, or `None` where there is none that is ended.
pub(crate) fn first_line(bytes: &[u8]) -> Option<FirstLine<'_>>
    ensures { MatchOption result (HasNoNewline bytes.now)
        (λ line. IsFirstLine bytes.now line.text.now line.is_alone) }
{
    let mut lines = Lines::new(bytes);
    let line = lines.next()?;
    if !line.ended {
        return None;
    }
    Some(FirstLine {
        text: line.text,
        is_alone: lines.next().is_none(),
    })
}

// What stands behind the tag, where that is something.
fn after_tag<'a>(text: &'a [u8], tag: &[u8]) -> Option<&'a [u8]>
    ensures { MatchOption result (HasNoTag tag.now text.now)
        (λ word. (0 < length word.now) × (text.now ≡ tag.now ++ word.now)) }
{
    let word = text.strip_prefix(tag)?;
    if word.is_empty() { None } else { Some(word) }
}

/// The first line of a file whose line is a tag and a word.
#[derive(Clone, Copy)]
pub(crate) struct WordLine<'a> {
    pub(crate) word: &'a [u8],
    // Whether nothing follows the line.
    pub(crate) is_alone: bool,
}

/// The word behind the tag in the first line, or `None` where there is no such line or no letter in it.
pub(crate) fn word_line<'a>(bytes: &'a [u8], tag: &[u8]) -> Option<WordLine<'a>>
    ensures { MatchOption result (IsUntagged tag.now bytes.now)
        (λ line. IsTagged tag.now bytes.now line.word.now line.is_alone) }
{
    let line = first_line(bytes)?;
    let word = after_tag(line.text, tag)?;
    Some(WordLine {
        word,
        is_alone: line.is_alone,
    })
}
