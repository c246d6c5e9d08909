//! The laws. Each function does nothing: its contract is the law.

ghost use Rattle.rh_otp_rehearsals.specs.Covered.{CoveredRehearsalsEndAlike};
ghost use Rattle.rh_otp_rehearsals.specs.Rehearsals.{RehearsalsEndAlike};
ghost use Rattle.rh_otp_rehearsals.specs.Reports.{ReportsAreTheSame};

/// A rehearsal each of whose commands ends alike, whichever of several messages comes first each time, shows the same by every order of
/// messages, so by every `--pick`: the same calls are refused, for the same reason, or have no end; each other command has the same answer,
/// and tells the same of each node, in the same order. Behind it as many steps are done, of as many; behind each number of steps all that
/// nodes know is the same, and what is between them is alike. That each command ends alike at its turn is asked of one of the orders alone.
pub fn rehearsals_end_alike()
    ensures { RehearsalsEndAlike }
{}

/// So all that is reported of its state, and the text of that, is the very same by every order, now and with any number of steps done.
pub fn reports_are_the_same()
    ensures { ReportsAreTheSame }
{}

/// Each command of a rehearsal ends alike at its turn, if it meets there what one of the laws of commands asks for: those of crashes and
/// failovers, of stops, exits and forbids, of starts, permits and fatal exits, of starts of distributed applications, of takeovers by a
/// call, of permissions of distributed applications, and of boots: of nodes that wait on, of nodes that come back to others, all of which
/// are up, and those that go one way to where the script begins; or if a node boots with one message, or where none is one slower thing, at
/// a time; or if time passes, nothing moves, and no timer is due until its end, or at each moment until then at which timers are due these
/// are left over, or are those of a failover, or of a wait that ends its node, or all that comes of them ends alike; or if the command ends
/// alike for another reason.
pub fn covered_rehearsals_end_alike()
    ensures { CoveredRehearsalsEndAlike }
{}
