//! The laws of cold starts. Each function does nothing: its contract is the law.

ghost use Rattle.rh_otp_colds.specs.Colds.{ColdStartsGoOn};
ghost use Rattle.rh_otp_colds.specs.Starts.{LastBootsComeToRest, LastBootsComeUp};
ghost use Rattle.rh_otp_colds.specs.Wholes.{ColdBootsEndAlike, ColdStartsEndAlike};
ghost use Rattle.rh_otp_colds.specs.Wholes.{LastBootsEndAsScriptsDo};

/// Each node's own file has it wait, and it names each other node in one of its two lists, and not in both. Where none has begun, and
/// behind the boot of each but the last one, in whatever order its messages arrive, each that is alive waits for exactly those that aren't;
/// it sees each other one that is alive, once, is else as it began, and nobody has a lock. From there the boot of each but the last one
/// ends alike, and comes to rest so again. Where one node is left, and another one is alive, the one that is left is the last one of those
/// that wait for one another.
pub fn cold_starts_go_on()
    ensures { ColdStartsGoOn }
{}

/// The last boot of such a cold start leads to a state in which the boot scripts of all that are alive then are to begin together, and
/// nothing else is left to move; and if every order ends alike from there, every order of what comes of the boot ends alike. The nodes are
/// those of the cluster, each has a dist_ac, and the boot lists are in order. There is one list of applications such that what each node's
/// own `distributed` has of its boot list is exactly what the node boots of that list, in the list's order; and those that it doesn't boot
/// are all left to the same node. Each application of the list is left to one node, which boots it and may run it: by the own `distributed`
/// of each node that boots it, and the permissions of all, that is the first node of the application's list that may run it, with no tuple
/// before it.
pub fn last_boots_end_as_scripts_do()
    ensures { LastBootsEndAsScriptsDo }
{}

/// From such a cold start each boot ends alike, whichever node begins, if there is another one: in every order of what comes of it. Where
/// all others are alive it is the last one, with all that the boot scripts of all nodes do. The conditions on the files are as above.
pub fn cold_boots_end_alike()
    ensures { ColdBootsEndAlike }
{}

/// So each boot of a whole cold start ends alike, whichever node begins each time, of two nodes or more. None has begun at first; they
/// begin one after the other, each where all that came of the one before is at rest. Meanwhile commands may end and begin, and time may
/// pass, while nodes and what is between them are as they were; a wait that ends by its time isn't covered. The conditions on the files are
/// as above.
pub fn cold_starts_end_alike()
    ensures { ColdStartsEndAlike }
{}

/// And wherever the last boot of such a cold start comes to rest, each node is up, in the life that it had once the boot had begun, and its
/// controller has each entry of its boot list as started, and knows where it runs: at the node itself, or at the first of the list that may
/// run it. Of each node an observer was told that it comes up, that it starts what starts there, in the order of its boot list, and that it
/// has booted, and nothing else. Nothing can move then, no dist_ac stands in the middle of something, nobody has a lock, and all else is as
/// it was there. The conditions on the files are as above.
pub fn last_boots_come_up()
    ensures { LastBootsComeUp }
{}

/// And the last boot of such a cold start does come to rest: by some order behind so many moves, and by no order are there more, so every
/// order comes to rest. The conditions on the files are as above.
pub fn last_boots_come_to_rest()
    ensures { LastBootsComeToRest }
{}
