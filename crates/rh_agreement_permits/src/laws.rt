//! The laws. Each function does nothing: its contract is the law.

ghost use Rattle.rh_agreement_permits.specs.Calls.{CallsAndPermitsAreAnsweredAlike};
ghost use Rattle.rh_agreement_permits.specs.Elsewhere.{PermitsWhereItRunsElsewhereAreAnsweredAlike};
ghost use Rattle.rh_agreement_permits.specs.Permits.{PermitsAloneAreAnsweredAlike};
ghost use Rattle.rh_agreement_permits.specs.Stops.{ForbidsWhereItRunsAreAnsweredAlike};

/// Where both are at rest, and have room for a step, a permission of a distributed application that changes nothing else is answered by
/// both alike, by `ok` alone, and leads to what is told alike; and both are at rest again. By the manual's rules the node isn't forbidden
/// an application that it runs; and where it is permitted one it was so before, or the application isn't started there, or lacks what it
/// needs, or it is lost, or to run nowhere, or runs at a node from which it isn't called back. The application is one of the live node's
/// own `distributed`; its dist_ac takes whatever comes, has synchronised and notes the permission alone, and the node sees those of the
/// application's list that are alive. A permit by which the application starts or moves isn't part of this.
pub fn permits_alone_are_answered_alike()
    ensures { PermitsAloneAreAnsweredAlike }
{}

/// So is, where both are at rest and have room for a step, a permit that changes nothing else by the manual's rules, at a node that sees
/// those of the list that are alive, whose controller has started the application, or is starting it, and doesn't run it, and whose dist_ac
/// finds behind the permit that it runs elsewhere: at the first node of the list that may run it, or at any, where the node still may not.
pub fn permits_where_it_runs_elsewhere_are_answered_alike()
    ensures { PermitsWhereItRunsElsewhereAreAnsweredAlike }
{}

/// Where both are at rest, and have room for a step, a call that forbids a distributed application where it runs, and can run at no
/// other node, is answered by both alike, by `ok` and its stop alone, and leads to what is told alike; and both are at rest again. By the
/// manual's rules it was permitted there. Behind the forbid the live node knows of no node that may run it; each other node of its list that
/// is alive and has it in its own `distributed` knows that it may not run it itself; the node has synchronised with the others, sees the
/// nodes of the list and all that its dist_ac knows, as far as they are alive, and nobody waits there for a takeover or for the end of an
/// application. A forbid by which the application moves to another node isn't part of this.
pub fn forbids_where_it_runs_are_answered_alike()
    ensures { ForbidsWhereItRunsAreAnsweredAlike }
{}

/// However many of these permissions, and of the calls of `rh_agreement_spread`, come one after the other, from where both are at rest, now
/// and behind each number of steps, are answered alike; each meets what its law asks where it has its turn.
pub fn calls_and_permits_are_answered_alike()
    ensures { CallsAndPermitsAreAnsweredAlike }
{}
