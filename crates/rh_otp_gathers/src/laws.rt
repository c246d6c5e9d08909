//! The laws of nodes that gather. Each function does nothing: its contract is the law.

ghost use Rattle.rh_otp_gathers.specs.Gathers.{NodesThatGatherComeToOneState};
ghost use Rattle.rh_otp_gathers.specs.LastBoot.{LastBootsComeToOneState};

/// Where each node that is alive waits for others, sees each other one that is alive, once, and nothing has come to its dist_ac; where
/// net_kernel's messages to it of all those for which it waits are on their way, no other message is, and nobody has a lock: there every
/// order in which messages arrive leads to one state, by the same number of moves. However the moves are chosen, so many of them can be
/// made, and behind them a system stands that is alike to it. In that state no message is on its way; each of the nodes has joined, once,
/// in the same life; each dist_ac has synchronised, with an empty mailbox, knows itself and of the others exactly those that have one, and
/// has learnt which applications each of these may run, by that one's own file, and that no other node may run any; nobody has a lock, and
/// an observer was told of each node that it is up, and nothing else. Their boot scripts are to begin, in the order in which they have
/// joined. All else of dist_acs, of nodes and between them is as it was. What the boot scripts then start isn't covered.
pub fn nodes_that_gather_come_to_one_state()
    ensures { NodesThatGatherComeToOneState }
{}

/// So it is where the last of nodes begins that all wait for one another: every order of what comes of its boot leads to one such state, by
/// the same number of moves. Its own file has it wait, and its lists name exactly those that are alive; each of these waits for it alone,
/// by one of its lists, sees each other one once, and nothing has come to its dist_ac since it began; there is one at least, and nobody is
/// connected with the node; no message is on its way, and nobody has a lock. What the boot scripts then start isn't covered.
pub fn last_boots_come_to_one_state()
    ensures { LastBootsComeToOneState }
{}
