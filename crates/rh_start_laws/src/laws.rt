//! The law of the last boot of a cold start. The function does nothing: its contract is the law.

ghost use Rattle.rh_start_laws.specs.Starts.{LastBootsStartAll};

/// Where the last node of a cluster begins, for which all others wait, and no application is to run yet, all nodes come up; each
/// application that isn't distributed starts at each node that boots it, in the order of the boot list; each distributed one that is booted
/// starts at the one node that may start it of the first group of its list that has any, and waits at each other one that boots it. That is
/// told, in this order, and nothing else; and so the state stands behind the boot, with no timer set.
///
/// Each boot list has its entries behind what they need; nothing in boot lists needs a distributed one; what isn't distributed is permitted
/// where it is booted; and of the list of each distributed application the first group with a node that boots it, and is permitted to run
/// it, has one such node alone.
pub fn last_boots_start_all()
    ensures { LastBootsStartAll }
{}
