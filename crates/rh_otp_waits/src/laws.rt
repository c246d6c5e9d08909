//! The laws of boots of nodes that wait on. Each function does nothing: its contract is the law.

ghost use Rattle.rh_otp_waits.specs.Together.{AllButTheLastEndAlike};
ghost use Rattle.rh_otp_waits.specs.Waits.{WaitingBootsEndAlike, WaitingBootsLeaveAllWaiting};
ghost use Rattle.rh_otp_waits.specs.Waits.{NodesThatNameOneAnotherSeeOneAnother};

/// Where live nodes are at rest and no call is open, all that comes of a boot is alike, in whatever order its messages arrive, where the
/// node waits on: its own file has it wait for some time or without end, its lists name each node that is alive, and one that isn't, other
/// than itself. All nodes that are alive see one another, and each that waits already waits for another one than this, too. No order has
/// more moves than another one that comes to rest. What comes of the end of a wait isn't covered.
pub fn waiting_boots_end_alike()
    ensures { WaitingBootsEndAlike }
{}

/// Under the same conditions the node waits behind such a boot, and all that waited wait on, whatever order led there. Where nothing moves
/// any more the node waits, for all others that its lists name and that weren't alive; each other one is as far as it was, in the same
/// life, and still waits for all those for which it waited, but for this one; and nothing was told. Nodes are at rest again, and all that
/// are alive see one another.
pub fn waiting_boots_leave_all_waiting()
    ensures { WaitingBootsLeaveAllWaiting }
{}

/// In any state that live nodes reach, two different nodes that are alive see one another, where the own file of each has it wait for some
/// time or without end, and the lists of each name the other one.
pub fn nodes_that_name_one_another_see_one_another()
    ensures { NodesThatNameOneAnotherSeeOneAnother }
{}

/// Of nodes whose lists name all others, and whose own files have them wait for some time or without end: where they are at rest, and each
/// that is alive waits for each that isn't, as where none has begun yet, all that comes of a boot is alike, in whatever order its messages
/// arrive, if the node that begins isn't the last one; and wherever nothing moves any more it is so again. So it is of the next boot from
/// there, until one node is left that isn't alive. What the last one comes to isn't covered.
pub fn all_but_the_last_end_alike()
    ensures { AllButTheLastEndAlike }
{}
