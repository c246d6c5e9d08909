//! The laws of starts of distributed applications. Each function does nothing: its contract is the law.

ghost use Rattle.rh_otp_begins.specs.Here.{StartsHereEndAlike};
ghost use Rattle.rh_otp_begins.specs.Nowhere.{StartsNowhereEndAlike};
ghost use Rattle.rh_otp_begins.specs.Waiting.{StartsLeftEndAlike};

/// Where live nodes are at rest and no call is open, all that comes of a start is alike, in whatever order its messages arrive, where the
/// application is to run at the node itself: the node's dist_ac, if it takes whatever comes, finds its own node to be the first of the list
/// that may run it, with no tuple before that, and doesn't know it to run there. Nobody waits at the node for a takeover, and the node sees
/// all those that are alive and of which its dist_ac knows. So it is whatever comes of the start: whether the application starts there,
/// moves there from another node, or fails to start, which may end the node. The command doesn't wait for nodes that end by themselves, as
/// no start does. No order has more moves than another one.
pub fn starts_here_end_alike()
    ensures { StartsHereEndAlike }
{}

/// So it is, where the application is left to another node, and doesn't run at the node itself: the node may run it, and the other one,
/// which is the first of the list that may, with no tuple before it, isn't known to run it, and is alive and seen; or the node may not run
/// it, another one may, and none is known that runs it. What comes of it when that one starts the application isn't covered.
pub fn starts_left_end_alike()
    ensures { StartsLeftEndAlike }
{}

/// So it is, where no node of the list may run the application, as the node's dist_ac knows, which knows of none that runs it.
pub fn starts_nowhere_end_alike()
    ensures { StartsNowhereEndAlike }
{}
