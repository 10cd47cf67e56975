//! The laws of codes: calls that do nothing, whose clauses are the laws.
ghost use Rattle.pm_lehmer.specs.Lehmer.{ArrangeUndoesCode, CodeUndoesArrange};

/// The code of a permutation is a code, and only that permutation has it.
pub fn arrange_undoes_code()
    ensures { ArrangeUndoesCode }
{}

/// Each code has one permutation, whose code it is.
pub fn code_undoes_arrange()
    ensures { CodeUndoesArrange }
{}
