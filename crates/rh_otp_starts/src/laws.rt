//! The laws of starts, permits and fatal exits. Each function does nothing: its contract is the law.

ghost use Rattle.rh_otp_starts.specs.Elsewhere.{StartsElsewhereEndAlike};
ghost use Rattle.rh_otp_starts.specs.Starts.{StartsEndAlike, PermitsEndAlike, FatalExitsEndAlike};

/// Where live nodes are at rest and no call is open, all that comes of a start is alike, in whatever order its messages arrive: of an
/// application that the node's own `distributed` hasn't got. So it is where the application starts; where the start is refused, since the
/// application runs or what it needs isn't started; where it fails, since what it needs doesn't run any more, and the node goes on to its
/// end, if the application isn't temporary; and where it waits, since the application is forbidden. No order has more moves than another
/// one. The command is over before such a node is down, as each start is. Starts of distributed applications aren't covered.
pub fn starts_end_alike()
    ensures { StartsEndAlike }
{}

/// So it is, under the same conditions, where such an application is permitted, whether it runs, starts, fails to start or does none of
/// that. Nobody waits at the node for its start. Not covered are permits of distributed applications.
pub fn permits_end_alike()
    ensures { PermitsEndAlike }
{}

/// So it is of a start of any application, distributed or not, where the node's dist_ac, if it takes whatever comes, knows that the
/// application runs at another node: at the first of the list that may run it, with no tuple before that one, where the node itself may run
/// it, else at any. Not covered are starts by which a distributed application starts, or moves, or for which its node waits for another
/// one.
pub fn starts_elsewhere_end_alike()
    ensures { StartsElsewhereEndAlike }
{}

/// Where live nodes are at rest and no call is open, all that comes of the end of an application's top process is alike, in whatever order
/// its messages arrive, also where that ends the node, by the application's restart type: the answer to the operator and what other nodes
/// are told of the application, which come before the node ends, and all that other nodes do at its end. No `distributed` entry of any node
/// has a timeout of 0. Where the application is one of the node's own `distributed`, nobody waits at the node's dist_ac for a takeover or
/// for the end of an application, and the node sees all those that are alive and of which it knows.
pub fn fatal_exits_end_alike()
    ensures { FatalExitsEndAlike }
{}
