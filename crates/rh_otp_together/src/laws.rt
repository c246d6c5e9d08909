//! The laws of boot scripts that begin at once. Each function does nothing: its contract is the law.

ghost use Rattle.rh_otp_together.specs.Booted.{BootScriptsComeToOneState};
ghost use Rattle.rh_otp_together.specs.Together.{BootScriptsEndAlikeTogether};

/// Where the boot scripts of all nodes that are alive are to begin, and nothing has started yet, all that comes of them is alike, in
/// whatever order scripts begin and messages arrive; and no order has more moves than another one that comes to rest.
///
/// Nothing else is left to move then: no message is on its way, no call is open, and nobody has a lock of `global`. Each node that is alive
/// is up, its script is at its beginning, its controller is as it began, and it has a dist_ac, which takes whatever comes, knows of no
/// start, and knows of the other nodes exactly those that are alive, each once; the node sees each of these. A boot list has fewer than
/// 2^64 - 1 entries; each of them stands there once, behind what it needs, and what the node's own `distributed` hasn't got is permitted
/// there.
///
/// The distributed applications stand in one list, in an order that is the same for all nodes. What a node's boot list has of its own
/// `distributed` is what the node boots of that list, in that order; and all applications of that list that it doesn't boot, be they in its
/// own `distributed` or not, are left to the same node. Each dist_ac leaves each of those that its node boots to the same node as the
/// others do, one that is alive, and boots it, too: to the first of the application's nodes that may run it, with no tuple before it, where
/// its own node may run it; else to some node of these that may.
///
/// What comes of an application that no node may run, of starts that fail, of two applications that one node doesn't boot and that run at
/// different nodes (its dist_ac keeps the news of them in the order in which they come), and of boot lists that have their distributed
/// applications in different orders, where live nodes may wait for one another for ever, isn't covered.
pub fn boot_scripts_end_alike_together()
    ensures { BootScriptsEndAlikeTogether }
{}

/// And so all orders lead to one state, by the same number of moves: however the moves are chosen, so many of them can be made, and behind
/// them a system stands that is alike to it, and in which nothing moves. In that state each script has come to the end of its list, and
/// the node's controller has each entry as started, and knows where it runs: at the node itself, or at the one to which the dist_acs leave
/// it. Each dist_ac takes whatever comes, with an empty mailbox. Of starts that its node hasn't asked for it knows those of the
/// applications that its node doesn't boot: at which node these run, the last one of the list in front. Nobody waits at it for anything,
/// if nobody waited there for a permission before; and nobody has a lock. Of each node an observer was told the starts of what runs there,
/// in the order of its boot list, and behind them that it has booted, if it is one of the cluster; of nodes that aren't alive, and of
/// none, nothing was told. All else is as it was, and of each node its phase and its life, too.
pub fn boot_scripts_come_to_one_state()
    ensures { BootScriptsComeToOneState }
{}
