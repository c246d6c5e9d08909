//! A law of courses. The function does nothing: its contract is the law.

ghost use Rattle.rh_courses.specs.Laws.{LengthsAddUp};

/// A law: since an application first ran, how long it ran and how long it ran nowhere are together the time up to now.
pub fn lengths_add_up()
    ensures { LengthsAddUp }
{}
