//! How many commands a script has, and how many of them differ.

ghost use Rattle.std.specs.Prelude.{◌≡◌, ◌+◌, ◌<◌, ◌^◌, IfOk};
ghost use Rattle.std.specs.String.{string_bytes};
ghost use Rattle.rh_verify.specs.Counts.{with_stray, tally_text};
ghost use Rattle.rh_verify.specs.Judging.{with_verdict};

use rh_base::OutOfMemory;
use std::alloc::Global;

/// What was counted of a script's commands.
#[derive(Clone, Copy)]
pub struct Tally {
    /// How many there are.
    pub commands: u64,
    /// Of how many something is expected.
    pub checked: u64,
    /// Of how many something doesn't hold.
    pub differing: u64,
}

/// What became of one command.
#[derive(Clone, Copy)]
pub struct Verdict {
    /// Whether something is expected of it.
    pub is_checked: bool,
    /// Whether something doesn't hold.
    pub differs: bool,
}

// The tally with one command more.
pub fn with_verdict(tally: Tally, verdict: Verdict) -> Tally
    requires commands { tally.commands + 1 < 2 ^ 64 }
    requires checked { tally.checked + 1 < 2 ^ 64 }
    requires differing { tally.differing + 1 < 2 ^ 64 }
    ensures { result ≡ with_verdict tally verdict }
{
    Tally {
        commands: tally.commands + 1,
        checked: tally.checked + verdict.is_checked as u64,
        differing: tally.differing + verdict.differs as u64,
    }
}

// The tally with so many expectations to which there is no command.
pub fn with_stray(count: u64, tally: Tally) -> Tally
    requires checked { count + tally.checked < 2 ^ 64 }
    requires differing { count + tally.differing < 2 ^ 64 }
    ensures { result ≡ with_stray count tally }
{
    Tally {
        commands: tally.commands,
        checked: count + tally.checked,
        differing: count + tally.differing,
    }
}

// The last line of a text.
#[tactic(auto, unfolding(crate::specs::Counts::tally_text))]
pub fn tally_text(alloc: Global, tally: Tally) -> Result<String, OutOfMemory>
    ensures { IfOk result (λ text. string_bytes text ≡ tally_text tally) }
{
    let commands = tally.commands;
    let checked = tally.checked;
    let differing = tally.differing;
    if differing == 0 {
        Ok(format!(in alloc; "ok {checked} of {commands} commands checked\n")?)
    } else {
        Ok(format!(in alloc; "differs {differing} of {checked}\n")?)
    }
}
