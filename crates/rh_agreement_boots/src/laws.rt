//! The laws. The functions do nothing: their contracts are the laws.

ghost use Rattle.rh_agreement_boots.specs.Boots.{FirstBootsAreAnsweredAlike};
ghost use Rattle.rh_agreement_boots.specs.Calls.{BootsAndPeacefulCallsAreAnsweredAlike};
ghost use Rattle.rh_agreement_boots.specs.Waiting.{WaitingBootsAreAnsweredAlike, WaitingBootsComeToAnEnd};

/// Where both are at rest and have room for a step, and no node is alive, the boot of a node that then waits for others, by the manual's
/// rules and by its own file, and whose lists don't name itself, is answered by both alike, by `ok` alone where it isn't refused, and leads
/// to what is told alike; both are at rest again, and the live nodes stay in touch.
pub fn first_boots_are_answered_alike()
    ensures { FirstBootsAreAnsweredAlike }
{}

/// The same whoever else is alive, up or waiting, where the node waits on behind its boot: it lacks a node, and no other node's wait is
/// over by it. By the manual's rules no node is ready then. On live nodes its own file has it wait, its lists name all that are alive, these
/// stay in touch (each two of them see one another, and none is on its way to its end), and they are so few that the step isn't taken for
/// one without end. Not covered: a boot behind which some node comes up, and one of a node whose lists don't name all that are alive.
pub fn waiting_boots_are_answered_alike()
    ensures { WaitingBootsAreAnsweredAlike }
{}

/// Where the node is connected with nobody yet, each other one with so many at most, and what the entries of the node's lists can lead to
/// is below the bound of a million moves, such a boot isn't taken for a step without end: as in a cluster of 64 nodes, each of which is
/// named once, and connected once with each other one at most.
pub fn waiting_boots_come_to_an_end()
    ensures { WaitingBootsComeToAnEnd }
{}

/// From where both are at rest, now and behind each number of steps, however many such boots, crashes, ticks that reach no timer, and steps
/// back and forth come one after the other, each is answered by both alike: so from where no node has begun.
pub fn boots_and_peaceful_calls_are_answered_alike()
    ensures { BootsAndPeacefulCallsAreAnsweredAlike }
{}
