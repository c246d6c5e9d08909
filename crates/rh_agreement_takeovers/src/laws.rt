//! The laws. Each function does nothing: its contract is the law.

ghost use Rattle.rh_agreement_takeovers.specs.Calls.{CallsAndTakeoversAreAnsweredAlike};
ghost use Rattle.rh_agreement_takeovers.specs.Refused.{TakeoversAreRefusedAlike};
ghost use Rattle.rh_agreement_takeovers.specs.Takeovers.{TakeoversAreAnsweredAlike};

/// Where both are at rest, and have room for a step, a takeover by a call is answered by both alike, by `ok`, the start of the application
/// as a takeover, and its stop at the node at which it ran, and leads to what is told alike; and both are at rest again. Whatever restart
/// type is given. The application runs at that node, another one, on both sides. By the manual's rules the node of the call is up, listed
/// and permitted, what it needs runs there, and nothing that waits there needs it. The live node has it as started, and as one that runs at
/// the other node, has what it needs, sees all that its dist_ac knows and that are alive, and isn't on its way to its end; the other node
/// gives it up at the news, and no third one runs it.
pub fn takeovers_are_answered_alike()
    ensures { TakeoversAreAnsweredAlike }
{}

/// However many of these takeovers, and of the calls of `rh_agreement_spread`, come one after the other, from where both are at rest, now
/// and behind each number of steps, are answered alike; each meets what its law asks where it has its turn.
pub fn calls_and_takeovers_are_answered_alike()
    ensures { CallsAndTakeoversAreAnsweredAlike }
{}

/// Where both are at rest, and have room for a step, a takeover that the manual's rules refuse, as the application runs at the node or runs
/// nowhere, is refused by the same text where the node's dist_ac, which takes whatever comes and has synchronised, has it so, too. By the
/// manual's rules nothing changes; both tell the same behind it, and are at rest. Live nodes count the call as a step: what comes behind
/// it, as `undo`, isn't covered.
pub fn takeovers_are_refused_alike()
    ensures { TakeoversAreRefusedAlike }
{}
