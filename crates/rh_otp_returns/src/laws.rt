//! The laws of a node that comes up. Each function does nothing: its contract is the law.

ghost use Rattle.rh_otp_returns.specs.Arrivals.{ArrivalsComeToOneState, ArrivalsEndAlike};
ghost use Rattle.rh_otp_returns.specs.Returns.{ReturnsEndAlike};

/// Where live nodes are at rest, a node that isn't alive begins: its file has it wait for others, for some time or forever, and its lists
/// name exactly those that are alive, if any is. These are up, see one another, and take whatever comes. No list that the node's own
/// `distributed` has of what its boot list names has a tuple. Then all that comes of it ends alike, the boot script included, whichever
/// message arrives first each time: of those by which it sees the others, of those by which it synchronises with them, and of those that
/// its script leads to, at the others, too.
///
/// So it is whatever the boot list is, whoever may run what stands there, wherever it runs, and whatever comes of each entry. If the
/// command waits for nodes that end by themselves, an application that is lost with a node is started elsewhere after some time. No
/// answers of nodes to one another are counted before, as where a command settles; so by any two orders that `settle` is told, by which
/// all comes to rest, it comes to the same. No order has more moves than another one that comes to rest. A node whose lists lack one that
/// is alive, or name one that isn't, or that doesn't wait, isn't covered, and neither are nodes that begin at once.
pub fn returns_end_alike()
    ensures { ReturnsEndAlike }
{}

/// Where live nodes are at rest, and the timer that is due next is the end of a node's wait for others, alone, the node comes up without
/// those for which it waits still, if it has seen each that it must have, be that one still alive or not. In every order, and by the same
/// number of moves, it comes to the same until its boot script begins: the node is up, an observer was told so, and nothing else; its
/// dist_ac, if it has one, has synchronised; of the others nothing has changed but their dist_acs. What is asked of the nodes before is
/// said at [`arrivals_end_alike`], but nothing of what the boot list names.
pub fn arrivals_come_to_one_state()
    ensures { ArrivalsComeToOneState }
{}

/// Where a node comes up so, all that comes of it ends alike, whichever message arrives first each time: its dist_ac synchronises with
/// those that it sees, and its boot script runs, with all that this leads to at the others. The node sees each other node that is
/// alive, and the dist_ac of each of these, where it has one, takes whatever comes. Nothing has come to the node's own dist_ac while it
/// waited, and nobody waits there for a start. No list that its own `distributed` has of what its boot list names has a tuple.
///
/// So it is whether the node is alone or not, whether it has a dist_ac, whatever its boot list is, whoever may run what stands there,
/// and whatever comes of each entry. Others that have no dist_ac may wait still. If the command waits for nodes that end by themselves,
/// an application that is lost with a node is started elsewhere after some time. No answers of nodes to one another are counted before,
/// as where a command settles; so by any two orders that `settle` is told, by which all comes to rest, it comes to the same. A node to
/// whose dist_ac anything has come while it waited isn't covered, nor one that sees another one that waits still and has a dist_ac, and
/// neither are waits of two nodes that end at once.
pub fn arrivals_end_alike()
    ensures { ArrivalsEndAlike }
{}
