//! The laws of stops, exits and forbids. Each function does nothing: its contract is the law.

ghost use Rattle.rh_otp_stops.specs.Stops.{StopsEndAlike, ExitsEndAlike, ForbidsEndAlike};

/// Where live nodes are at rest and no call is open, all that comes of a stop is alike, in whatever order its messages arrive: the answer
/// to the operator, what the node's dist_ac is told, and what it tells others. No order has more moves than another one. It is so wherever
/// the application runs, if it does, and whether it is distributed. Where the application is one of the node's own `distributed`, nobody
/// waits at the node's dist_ac for a takeover or for the end of an application, and the node sees all those that are alive and of which its
/// dist_ac knows.
pub fn stops_end_alike()
    ensures { StopsEndAlike }
{}

/// So it is, under the same conditions, where the top process of an application is told to end, normally or not, and that keeps the node, or
/// the application doesn't run there.
pub fn exits_end_alike()
    ensures { ExitsEndAlike }
{}

/// So it is where an application is forbidden at a node whose own `distributed` hasn't got it: there it stops, if it runs there. Nothing
/// more is asked.
pub fn forbids_end_alike()
    ensures { ForbidsEndAlike }
{}
