//! The laws of lines: calls that do nothing, whose clauses are the laws.
ghost use Rattle.pm_lists.specs.ListLine.{LineSpellsOneList, ListHasOneLine};

/// A law: the line that [`crate::put_list`] appends, without its newline, spells the list, so that
/// [`crate::read_list`] reads it again; no other line spells that list.
pub fn list_has_one_line()
    ensures { ListHasOneLine }
{}

/// A law: a line spells at most one list.
pub fn line_spells_one_list()
    ensures { LineSpellsOneList }
{}
