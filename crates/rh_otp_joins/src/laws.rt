//! The laws of a node that comes back. Each function does nothing: its contract is the law.

ghost use Rattle.rh_otp_joins.specs.Connections.{ConnectedNodesAreAlive};
ghost use Rattle.rh_otp_joins.specs.Joins.{ConnectionsThereEndAlike, JoinsComeToOneState, JoinsEndAsBootsDo};
ghost use Rattle.rh_otp_joins.specs.Leading.{LeadsOn, WhatLeadsThereEndsAlike};

/// Where live nodes are at rest, a node that isn't alive begins: its file has it wait for others, for some time or forever, and its lists
/// name exactly those that are alive, if any is. These are up, see one another, and take whatever comes. Then every order of what comes of
/// it leads, by the same number of moves, to states that are alike, and such a one is reached. There the node is up, an observer was told
/// so, and its dist_ac, if it has one, takes itself to have synchronised; whom it knows isn't said; nobody has a lock, no call is open, all
/// dist_acs take whatever comes, all nodes see one another, and nothing is left to move but the node's boot script, and connections that
/// `global` is to make, which are there already or of nodes that aren't alive. But for itself the node knows only of nodes that are alive
/// that they may run anything; what else nodes know of one another is told by the definitions alone. What the boot script does isn't
/// covered, and neither is a node whose lists lack one that is alive, or name one that isn't, or that doesn't wait.
pub fn joins_come_to_one_state()
    ensures { JoinsComeToOneState }
{}

/// So, under the same conditions, there is a state that is reached, like the one above, where nothing but the boot script is left to move;
/// and if every order ends alike from there, every order of what comes of the beginning ends alike.
pub fn joins_end_as_boots_do()
    ensures { JoinsEndAsBootsDo }
{}

/// Connections that `global` is to make, and that are there already or of nodes that aren't alive, change nothing of how what is reached
/// ends: where every order ends alike without them, every order ends alike with them, whenever they come about.
pub fn connections_there_end_alike()
    ensures { ConnectionsThereEndAlike }
{}

/// In any state that live nodes reach, both nodes of each connection are alive: so none is left of a node that isn't.
pub fn connected_nodes_are_alive()
    ensures { ConnectedNodesAreAlive }
{}

/// Two parts of a command, by each of which every order leads to one state, and of which the second begins where the first one ends, make
/// one part, by as many moves as both together.
pub fn leads_on()
    ensures { LeadsOn }
{}

/// Where every order leads to one state, and every order ends alike from there, every order ends alike, and none has more moves than
/// another one that comes to rest.
pub fn ends_alike_from_there()
    ensures { WhatLeadsThereEndsAlike }
{}
