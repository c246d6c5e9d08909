//! The laws of ticks. Each function does nothing: its contract is the law.

ghost use Rattle.rh_otp_ticks.specs.LeftOver.{LeftOverTimersChangeNothing};
ghost use Rattle.rh_otp_ticks.specs.Moments.{TicksThroughMomentsEndAlike};
ghost use Rattle.rh_otp_ticks.specs.WaitsEnd.{WaitsThatEndNodesDoNoMore, WaitsThatEndNodesEndAlike};

/// Where nothing can move and all timers that are due next are left over, at however many nodes, their messages arrive in whatever order,
/// and it comes to the same: all is as it was, but that the clock stands at that moment, and that these timers are gone. A timer is left
/// over if its process isn't there any more, since its node is down or has begun again; or if it was to end the wait of a node that is up;
/// or if it was set at the loss of an application that isn't lost at the node any more, and the node's dist_ac, if it has one, takes
/// whatever comes and does nothing.
pub fn left_over_timers_change_nothing()
    ensures { LeftOverTimersChangeNothing }
{}

/// Where live nodes are at rest and the wait of one node ends, alone, before the node has seen one that it must have, the node ends; and
/// all that comes of that ends alike in every order of messages, and so by every order that `settle` is told. No node's own `distributed`
/// has a timeout of 0. One that the node has seen counts as there, also where it is gone again.
pub fn waits_that_end_nodes_end_alike()
    ensures { WaitsThatEndNodesEndAlike }
{}

/// Under the same conditions it comes to this, in whatever order: the node is down, of its end alone an observer was told, of each other
/// node the phase is as it was and of each the life, the clock stands at that moment, and live nodes are at rest again. Of dist_acs,
/// connections and timers that says nothing.
pub fn waits_that_end_nodes_do_no_more()
    ensures { WaitsThatEndNodesDoNoMore }
{}

/// A tick ends alike over any number of moments at which timers are due, where nothing can move when time begins to pass. At each moment
/// the timers that are due are left over; or they are those of a failover, of live nodes that are at rest there (`failovers_end_alike` of
/// `rh_otp_crashes`); or there is one, of a wait with which its node ends, where live nodes are at rest and no node's own `distributed` has
/// a timeout of 0 ([`waits_that_end_nodes_end_alike`]); or all that comes of them ends alike for another reason. That it is so is asked of
/// what one order comes to before each moment, and holds of each order.
pub fn ticks_through_moments_end_alike()
    ensures { TicksThroughMomentsEndAlike }
{}
