//! The laws of crashes and failovers. Each function does nothing: its contract is the law.

ghost use Rattle.rh_otp_crashes.specs.Crashes.{CrashesEndAlike};
ghost use Rattle.rh_otp_crashes.specs.Failovers.{FailoversEndAlike};

/// Where live nodes are at rest and no call is open, all that comes of a crash is alike, in whatever order its messages arrive: whatever
/// ran at the node, and however many others are told of its end. No order has more moves than another one. It is so unless a
/// `distributed` entry has a timeout of 0: then the failover itself is part of what comes of the crash.
pub fn crashes_end_alike()
    ensures { CrashesEndAlike }
{}

/// Where live nodes are at rest and the timers of a lost application fire, at one node or at several at the same moment, the failover comes
/// to the same in every order: the start at the first node, and all that other nodes do at the news, those that have waited for it, too.
/// The first node is the first of the list that may run the application, with no tuple before it, and knows of nobody that runs it; what
/// the application needs runs there, and nobody waits there for a start or a takeover; and it sees all those that it knows of and that are
/// alive. Each other node at which a timer fires, if it is alive, finds that node to be the first of the list, may run the application itself,
/// has started it, sees the first node and doesn't monitor it yet, and knows of nobody that runs it and of no weight; or the application
/// isn't lost there any more. At each node one of these timers fires at most.
pub fn failovers_end_alike()
    ensures { FailoversEndAlike }
{}
