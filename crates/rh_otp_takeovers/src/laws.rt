//! The law of takeovers by a call. The function does nothing: its contract is the law.

ghost use Rattle.rh_otp_takeovers.specs.Takeovers.{TakeoversEndAlike};

/// Where live nodes are at rest and no call is open, all that comes of a takeover that an operator calls at a node is alike, in whatever
/// order its messages arrive, of any application. Where the node's dist_ac takes whatever comes and has the application, which is started
/// there, too, as one that runs at another node, nobody waits at the node for a takeover, and the node sees all those that are alive and of
/// which its dist_ac knows. So it is whatever comes of the call: whether the application moves to the node, or fails to start there, which
/// may end the node; whether the call is refused, as the application runs at the node, isn't started there, or isn't known to run at
/// another one; or whether the call stays open. The command doesn't wait for nodes that end by themselves, as no takeover does. No order
/// has more moves than another one.
pub fn takeovers_end_alike()
    ensures { TakeoversEndAlike }
{}
