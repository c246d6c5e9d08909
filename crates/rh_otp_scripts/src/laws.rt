//! The laws of boot scripts. Each function does nothing: its contract is the law.

ghost use Rattle.rh_otp_scripts.specs.Boots.{BootsEndAlike};
ghost use Rattle.rh_otp_scripts.specs.Scripts.{ScriptsEndAlike};

/// Where the boot script of a node begins and live nodes are at rest besides, all that comes of it is alike, in whatever order its
/// messages arrive. Nothing else is on its way then, no call is open, nobody has a lock of `global`, no dist_ac of a node that is alive
/// stands in the middle of something, and no node has to go on to its end. The node is alive, and nobody waits there for a start or a
/// takeover. It sees all those that are alive and of which its dist_ac knows. Of what the script starts it sees each other node that may
/// run it, as its dist_ac knows, and that one is alive; and no list of that in the node's own `distributed` has a tuple.
///
/// So it is whatever the boot list is and whatever comes of each entry: whether it starts at the node, moves there from another node, runs
/// elsewhere, may run nowhere, is left to another node, by which the script waits for that one, fails, which may end the node, is
/// forbidden, or was started before. If the command waits for nodes that end by themselves, as boots do, an application that is lost with
/// the node is started elsewhere after some time. No order has more moves than another one that comes to rest. What comes of it when the
/// other node starts what was left to it, and scripts of several nodes that begin at once, aren't covered.
pub fn scripts_end_alike()
    ensures { ScriptsEndAlike }
{}

/// So it is with what comes before a script, where that goes one way to where the script begins: wherever several moves are possible before
/// the script, all lead to the very same state, as where one message at a time is on its way. Where the script begins all is as above. No
/// answers of nodes to one another are counted before, as where a command settles. So the whole command of a boot ends alike that goes so.
pub fn boots_end_alike()
    ensures { BootsEndAlike }
{}
