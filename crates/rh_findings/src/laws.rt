//! A law of the order in which findings are listed. The function does nothing: its contract is the law.

ghost use Rattle.rh_findings.specs.Laws.{ListIsOne};

/// What was found is listed in one way: two lists of it, in this order, are the same.
pub fn list_is_one()
    ensures { ListIsOne }
{}
