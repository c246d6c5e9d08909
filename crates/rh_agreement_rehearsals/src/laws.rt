//! The laws. Each function does nothing: its contract is the law.

ghost use Rattle.rh_agreement_rehearsals.specs.ColdStarts.{ColdCallsAreAnsweredUpToOrder, ColdRehearsalsAreAnsweredUpToOrder};
ghost use Rattle.rh_agreement_rehearsals.specs.Rehearsals.{AgreedCallsAreAnsweredAlike, AgreedRehearsalsAreAnsweredAlike};
ghost use Rattle.rh_agreement_rehearsals.specs.WholeStarts.{RehearsalsBehindAColdStart, WholeStartsAreAnsweredAlike};

/// Where both are at rest, now and behind each number of steps, any list of the following calls, each of which meets at its turn what its
/// own law asks, is answered alike, call by call: boots of the first node where it waits, and of nodes that wait on; stops, ends that
/// keep the node, starts and forbids of applications that aren't distributed; stops, ends that keep the node and starts of distributed
/// ones, their takeovers, and permissions by which nothing else changes, or by which they start, stop or are called back; crashes; ticks
/// at rest, and those over moments of failovers, of waits that end their nodes and of timers that are left over; `undo`, `redo`,
/// `undo_all` and `redo_all`.
pub fn agreed_calls_are_answered_alike()
    ensures { AgreedCallsAreAnsweredAlike }
{}

/// So it is of a whole rehearsal of such calls, from where no node has begun: of any cluster that a file says, whatever breaks a tie by the
/// manual's rules and in whichever order live nodes take messages, if no node's own `distributed` has a timeout of 0. In such a rehearsal
/// no node comes up, since each boot is one of a node that waits on, and a wait that ends in a tick ends its node; so calls at nodes that
/// are up, and failovers, never meet there what they ask. `cold_rehearsals_are_answered_up_to_order` is of rehearsals in which all come up.
pub fn agreed_rehearsals_are_answered_alike()
    ensures { AgreedRehearsalsAreAnsweredAlike }
{}

/// So is any list of these calls and of last boots of cold starts, by which all nodes come up: such a boot is answered by `ok` and the same
/// lines, in some order, and each other call by the same text.
pub fn cold_calls_are_answered_up_to_order()
    ensures { ColdCallsAreAnsweredUpToOrder }
{}

/// And so is a whole rehearsal of such calls, from where no node has begun, of any cluster that a file says, whatever breaks a tie and in
/// whichever order live nodes take messages, if no node's own `distributed` has a timeout of 0. In it all nodes can come up, by the last
/// boot of a cold start; calls at nodes that are up follow, as each call's own law has it.
pub fn cold_rehearsals_are_answered_up_to_order()
    ensures { ColdRehearsalsAreAnsweredUpToOrder }
{}

/// A whole cold start is answered alike, with conditions on the files alone, but for one: from where no node has begun the nodes of a
/// cluster, two or more, begin one after the other, each once. All boots but the last one are answered by the same text, `ok` alone, and
/// the last one by `ok` and the same lines, in some order; behind it both are at rest, now and behind each number of steps. A file says the
/// cluster. Each node waits, by the cluster and by its own file; its lists name each other node, in one of the two alone, and not itself.
/// It has a dist_ac. The distributed applications that nodes boot stand in one order. By both the same node is the first one that may run
/// each of them, and it boots it: the application is left to it; and all those that a node doesn't boot are left to the same node. Each
/// entry of a boot list stands behind what it needs, which isn't distributed; what isn't distributed is permitted where it is booted. Of
/// what a node boots its own `distributed` has exactly what is distributed, and has no timeout of 0. Lists are so short that boots of nodes
/// that wait on stay below a million moves. The other condition is that what comes of the last boot isn't taken for a step without end on
/// live nodes.
pub fn whole_starts_are_answered_alike()
    ensures { WholeStartsAreAnsweredAlike }
{}

/// And each call of a whole rehearsal that begins with such a cold start, and goes on with calls as above, is answered by the same text,
/// or, if it is a boot, by the same lines, in some order.
pub fn rehearsals_behind_a_cold_start_are_answered_up_to_order()
    ensures { RehearsalsBehindAColdStart }
{}
