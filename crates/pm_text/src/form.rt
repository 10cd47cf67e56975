//! The laws of broken lines, for each form of file.
ghost use Rattle.std.specs.Prelude.{ℕ, List};
ghost use Rattle.pm_text.specs.Broken.{ValidHasNoBrokenLine, BrokenLineIsUnique};

/// A form of file, by its valid files.
pub trait Form {
    ghost valid: { List ℕ → Type 0 };
}

/// A law: a valid file has no broken line.
pub fn valid_has_no_broken_line<F: Form>()
    ensures { ValidHasNoBrokenLine F.valid }
{}

/// A law: a file has at most one broken line.
pub fn broken_line_is_unique<F: Form>()
    ensures { BrokenLineIsUnique F.valid }
{}
