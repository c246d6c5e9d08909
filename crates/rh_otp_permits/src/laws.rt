//! The law of permissions of distributed applications. The function does nothing: its contract is the law.

ghost use Rattle.rh_otp_permits.specs.Permits.{PermitsAloneEndAlike};

/// Where live nodes are at rest and no call is open, all that comes of a permit or a forbid of a distributed
/// application is alike, in whatever order its messages arrive, where only the permission changes: the application is neither started nor
/// being started at the node; or it is permitted and runs there; or it is forbidden, and the node's dist_ac knows that it runs at another
/// node, or nothing of it. Where it is forbidden it doesn't run there. The node's dist_ac has synchronised with the others, and the node
/// sees those of the application's list that are alive. The command doesn't wait for nodes that end by themselves, as no permit does. No
/// order has more moves than another one. Not covered are permissions by which an application starts, stops or moves, or that come to one
/// that was lost.
pub fn permits_alone_end_alike()
    ensures { PermitsAloneEndAlike }
{}
