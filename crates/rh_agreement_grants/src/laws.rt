//! The laws. Each function does nothing: its contract is the law.

ghost use Rattle.rh_agreement_grants.specs.CallBacks.{PermitsByWhichItIsCalledBackAreAnsweredAlike};
ghost use Rattle.rh_agreement_grants.specs.Calls.{CallsAndGrantsAreAnsweredAlike};
ghost use Rattle.rh_agreement_grants.specs.Grants.{PermitsByWhichItStartsAreAnsweredAlike};

/// Where both are at rest, and have room for a step, a permit of a distributed application that is wanted and waits at the node is answered
/// by both alike, by `ok` and its start there alone, and leads to what is told alike; and both are at rest again. By the manual's rules
/// what it needs runs there, nothing that waits there needs it, and it starts as any other one: it was lost with no other node, or has no
/// start phases. On the live node it is one of its own `distributed`, its controller has started it and doesn't run it, nobody waits for
/// its start, and what it needs runs; its dist_ac takes whatever comes, has synchronised, knows nothing of it, and finds behind the permit
/// its own node to be the first of the list that may run it, with no tuple before it; nobody waits there for a takeover; the node sees
/// those of the list and of which its dist_ac knows, as far as they are alive, and isn't on its way to its end; no other node that is alive
/// runs it; and the number of nodes in the list, and twice the number that its dist_ac knows, are below 999,993 together.
pub fn permits_by_which_it_starts_are_answered_alike()
    ensures { PermitsByWhichItStartsAreAnsweredAlike }
{}

/// Where both are at rest, and have room for a step, a permit by which a distributed application is called back from another node is
/// answered by both alike, by `ok`, its start at the node of the call as a takeover from the other one, and its stop at that one, and leads
/// to what is told alike; and both are at rest again. By the manual's rules, in a profile in which a permission that is given back calls
/// back, it runs at that node, in a later group than the one of the call, where it waits and is forbidden; what it needs runs there, and
/// nothing that waits there needs it. The live node's premises are those of a permit by which it starts, but that its dist_ac has the
/// application as one that runs at the other node, of which it knows, and its controller lists it as running, but not here. The other node
/// is alive and not on its way to its end, runs it, and has it as started, it is one of that node's own `distributed`, and the dist_ac
/// there takes whatever comes; and no third node that is alive runs it. The same numbers are bounded.
pub fn permits_by_which_it_is_called_back_are_answered_alike()
    ensures { PermitsByWhichItIsCalledBackAreAnsweredAlike }
{}

/// However many of these permits, and of the calls of `rh_agreement_permits`, come one after the other, from where both are at rest, now
/// and behind each number of steps, are answered alike; each meets what its law asks where it has its turn.
pub fn calls_and_grants_are_answered_alike()
    ensures { CallsAndGrantsAreAnsweredAlike }
{}
