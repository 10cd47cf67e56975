//! The law of good starts: a call that does nothing, whose clause is the law.
ghost use Rattle.pm_words.specs.Laws.{CycleLemma};

/// The cycle lemma: a word of letters that are at least -1, with the sum `-goal`, has exactly `goal` good starts.
pub fn cycle_lemma()
    ensures { CycleLemma }
{}
