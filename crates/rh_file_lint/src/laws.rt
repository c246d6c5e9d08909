//! A law of the definition that the contract of this crate cites. The function does nothing: its contract is the law.

ghost use Rattle.rh_file_lint.specs.Laws.{FindingsAreSo};

/// Each finding is listed exactly if what it says is so, and nothing else is listed.
pub fn findings_are_so()
    ensures { FindingsAreSo }
{}
