//! The law. The function does nothing: its contract is the law.

ghost use Rattle.rh_agreement_ticks.specs.Passing.{TicksThroughMomentsAreAnsweredAlike};

/// Where both are at rest, and have room for a step, a tick is answered by both alike where each moment at which timers are due on live
/// nodes is one of timers that are left over, which change nothing, or of one failover, or of one wait that ends before the node has seen
/// one that it must have; where by the manual's rules the same applications fail over, from and to the same nodes, and the same nodes end
/// with their waits, since one that they must have isn't alive then, in the same order, though maybe at other times; where by the manual's
/// rules no failover is due at one time with another timer, and on live nodes no end of a wait with any other; and where live nodes have
/// set fewer than a million timers, and the messages that tell of such an end, and one more, are fewer than that, too: by `ok` and these
/// starts and ends alone, where it isn't refused. No dist_ac of a live node has an application as running at a node that ends so. It leads
/// to what is told alike; and both are at rest again.
pub fn ticks_through_moments_are_answered_alike()
    ensures { TicksThroughMomentsAreAnsweredAlike }
{}
