//! `close eulerian` and `close tri`.
ghost use Rattle.std.specs.Prelude.{◌≡◌, ◌<◌, ◌≤◌, ◌^◌, length, if◌then◌else◌};
ghost use Rattle.pm_io.specs.declared.TheConstants.{MAX_BYTES as limit};
ghost use Rattle.pm_cli.specs.declared.close.Trees.TheVariants.{Stem as SomeTrees};
ghost use Rattle.pm_cli.specs.declared.refusal.Refusal.TheVariants.{Text, Limited, Tree};
ghost use Rattle.pm_cli.specs.declared.refusal.Limit.TheVariants.{Letters};
ghost use Rattle.pm_cli.specs.declared.close.WordRefusal.TheVariants.{Rule};
ghost use Rattle.pm_cli.specs.declared.refusal.Stop.TheVariants.{Refused};
ghost use Rattle.pm_cli.specs.Closing.{ClosesFile};
ghost use Rattle.pm_cli.specs.TreeKinds.{blossoming_trees, stem_trees, kind_of, trees_word};
ghost use Rattle.pm_cli.specs.steps.Answering.{IsAnswerBy};
ghost use Rattle.pm_cli.specs.steps.Closing.{IsWordClosing};

use crate::class::Spelled;
use crate::first_line::word_line;
use crate::refusal::{Limit, Refusal, Stop, TreeRule};
use pm_close::{CloseRefusal, close_map};
use pm_map::RootedMap;
use pm_mapfile::canonical_bytes;
use pm_trees::{TreeRefusal, read_tree};
use pm_tri::{TriTreeRefusal, read_tri_tree};
use pm_triclose::{TriCloseRefusal, tri_close};
use std::alloc::Global;

/// The trees that are closed to maps, by their kind.
#[derive(Clone, Copy)]
pub enum Trees {
    /// `eulerian`: blossoming trees, which close to maps whose vertices have even degrees.
    Blossoming,
    /// `tri`: stem trees, which close to simple triangulations.
    Stem,
}

impl Spelled for Trees {
    ghost word_of = { trees_word };

    ghost some = { SomeTrees };

    fn of_word(word: &String) -> Option<Trees> {
        match word.as_str() {
            "eulerian" => Some(Trees::Blossoming),
            "tri" => Some(Trees::Stem),
            _ => None,
        }
    }
}

// Why a word wasn't closed.
#[derive(Clone, Copy)]
enum WordRefusal {
    // There is no memory left. It may come at any word.
    Memory,
    // Its text isn't in order.
    Text,
    // The first rule that it breaks.
    Rule(Refusal),
}

// A word with more letters than a tree may have.
fn too_many(letters: u64) -> WordRefusal
    ensures { result ≡ Rule (Limited (Letters letters)) }
{
    WordRefusal::Rule(Refusal::Limited(Limit::Letters { letters }))
}

// A word whose tree breaks this rule.
fn rule(rule: TreeRule) -> WordRefusal
    ensures { result ≡ Rule (Tree rule) }
{
    WordRefusal::Rule(Refusal::Tree(rule))
}

// The closure of the blossoming tree with this word.
fn close_blossoming(alloc: Global, word: &[u8]) -> Result<RootedMap, WordRefusal>
    requires { length word.now < 2 ^ 32 }
    ensures { IsWordClosing blossoming_trees word.now result }
{
    let tree = match read_tree(alloc, word) {
        Ok(tree) => tree,
        Err(TreeRefusal::Memory) => return Err(WordRefusal::Memory),
        Err(TreeRefusal::Text { .. }) => return Err(WordRefusal::Text),
        Err(TreeRefusal::TooMany { letters }) => return Err(too_many(letters)),
        Err(TreeRefusal::Degree { place }) => return Err(rule(TreeRule::Degree { place })),
        Err(TreeRefusal::Buds { place }) => return Err(rule(TreeRule::Buds { place })),
    };
    match close_map(alloc, &tree) {
        Ok(closed) => Ok(closed),
        Err(CloseRefusal::Memory) => Err(WordRefusal::Memory),
        Err(CloseRefusal::NotBalanced { bud }) => Err(rule(TreeRule::Matched { bud })),
    }
}

// The closure of the stem tree with this word.
fn close_stems(alloc: Global, word: &[u8]) -> Result<RootedMap, WordRefusal>
    requires { length word.now < 2 ^ 32 }
    ensures { IsWordClosing stem_trees word.now result }
{
    let tree = match read_tri_tree(alloc, word) {
        Ok(tree) => tree,
        Err(TriTreeRefusal::Memory) => return Err(WordRefusal::Memory),
        Err(TriTreeRefusal::Text { .. }) => return Err(WordRefusal::Text),
        Err(TriTreeRefusal::TooMany { letters }) => return Err(too_many(letters)),
        Err(TriTreeRefusal::Stems { place }) => return Err(rule(TreeRule::Stems { place })),
    };
    match tri_close(alloc, &tree) {
        Ok(closed) => Ok(closed),
        Err(TriCloseRefusal::Memory) => Err(WordRefusal::Memory),
        Err(TriCloseRefusal::Closes { side }) => Err(rule(TreeRule::Closes { side })),
        Err(TriCloseRefusal::Follows { stem }) => Err(rule(TreeRule::Follows { stem })),
    }
}

// The closure of the tree of this kind with this word.
fn close_word(alloc: Global, trees: Trees, word: &[u8]) -> Result<RootedMap, WordRefusal>
    requires { length word.now < 2 ^ 32 }
    ensures { IsWordClosing (kind_of trees) word.now result }
{
    match trees {
        Trees::Blossoming => close_blossoming(alloc, word),
        Trees::Stem => close_stems(alloc, word),
    }
}

// How a run stops where a line breaks this rule, and a line that follows breaks the form of the file first.
fn unless_followed(is_alone: bool, refusal: Refusal) -> Stop
    ensures { result ≡ Refused (if is_alone then refusal else Text 2) }
{
    if is_alone {
        Stop::Refused(refusal)
    } else {
        Stop::Refused(Refusal::Text { line: 2 })
    }
}

// The text of the canonical map of the closure of the tree in the file.
pub(crate) fn close(alloc: Global, trees: Trees, bytes: &[u8]) -> Result<Vec<u8>, Stop>
    requires { length bytes.now ≤ limit }
    ensures { IsAnswerBy (ClosesFile (kind_of trees) bytes.now) result }
{
    let Some(line) = word_line(bytes, b"tree ") else {
        return Err(Stop::Refused(Refusal::Text { line: 1 }));
    };
    let closed = match close_word(alloc, trees, line.word) {
        Ok(closed) => closed,
        Err(WordRefusal::Memory) => return Err(Stop::Memory),
        Err(WordRefusal::Text) => return Err(Stop::Refused(Refusal::Text { line: 1 })),
        Err(WordRefusal::Rule(refusal)) => return Err(unless_followed(line.is_alone, refusal)),
    };
    if !line.is_alone {
        return Err(Stop::Refused(Refusal::Text { line: 2 }));
    }
    Ok(canonical_bytes(alloc, &closed)?)
}
