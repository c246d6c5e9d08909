//! Laws of the definitions that the contracts of this crate cite. Each function does nothing: its contract is the law.

ghost use Rattle.rh_term_lint.specs.Laws.{NamesAreRead, FindingsAreSo};

/// The names that count as read here are those that a cluster file is read for.
pub fn names_are_read()
    ensures { NamesAreRead }
{}

/// Each finding is so: a name that is told stands in the file and isn't read, and what was meant is read and near it.
pub fn findings_are_so()
    ensures { FindingsAreSo }
{}
