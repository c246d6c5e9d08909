//! What the answer to a call says.

ghost use Rattle.std.specs.Prelude.{◌≡◌};
ghost use Rattle.rh_otp_system.specs.Calls.{is_takeover};
ghost use Rattle.rh_otp_sim.specs.Verdicts.{is_start, is_stop, is_exit, refusal_if, refusal_for, verdict_of_fault, verdict_of, is_idle, is_done, weightier};

use rh_otp_model::{Fault, Outcome};
use rh_otp_system::Ask;
use rh_rules::Refusal;

/// What the answer to a call says.
#[derive(Clone, Copy, Debug, PartialEq, Eq)]
pub enum Verdict {
    /// `ok`
    Done,
    /// There was nothing to do, or something is lacking, as a refusal says.
    Refused(Refusal),
    /// Another error.
    Failed(Fault),
}

// Was a start asked for?
pub(crate) fn is_start(ask: Ask) -> bool
    ensures { result ≡ is_start ask }
{
    matches!(ask, Ask::Start(_))
}

// Was a stop?
fn is_stop(ask: Ask) -> bool
    ensures { result ≡ is_stop ask }
{
    matches!(ask, Ask::Stop)
}

// Was a takeover?
fn is_takeover(ask: Ask) -> bool
    ensures { result ≡ is_takeover ask }
{
    matches!(ask, Ask::Takeover(_))
}

// Was an end?
fn is_exit(ask: Ask) -> bool
    ensures { result ≡ is_exit ask }
{
    matches!(ask, Ask::Exit(_))
}

// The refusal, where this holds.
fn refusal_if(holds: bool, refusal: Refusal) -> Option<Refusal>
    ensures { result ≡ refusal_if holds refusal }
{
    if holds { Some(refusal) } else { None }
}

// The refusal that says the same as an error, by what was asked, if there is one.
fn refusal_for(ask: Ask, fault: Fault) -> Option<Refusal>
    ensures { result ≡ refusal_for ask fault }
{
    match fault {
        Fault::AlreadyStarted(_) => refusal_if(is_start(ask), Refusal::AlreadyStarted),
        Fault::NotStarted(_) => refusal_if(is_stop(ask), Refusal::NeverStarted),
        Fault::RunsNowhere(_) => refusal_if(is_takeover(ask), Refusal::NotRunning),
        Fault::RunsLocally(_) => refusal_if(is_takeover(ask), Refusal::RunsHere),
        Fault::NotRunning => refusal_if(is_exit(ask), Refusal::NotRunningHere),
        Fault::NeedsStarted(dep) => Some(Refusal::DependencyNotStarted { dep }),
        Fault::NeedsRunning(dep) => Some(Refusal::DependencyNotStarted { dep }),
        Fault::Stopped => None,
        Fault::FailedAt(_, _) => None,
    }
}

// What an error says, by what was asked.
fn verdict_of_fault(ask: Ask, fault: Fault) -> Verdict
    ensures { result ≡ verdict_of_fault ask fault }
{
    match refusal_for(ask, fault) {
        Some(refusal) => Verdict::Refused(refusal),
        None => Verdict::Failed(fault),
    }
}

/// What the answer to a call says.
pub fn verdict_of(ask: Ask, outcome: Outcome) -> Verdict
    ensures { result ≡ verdict_of ask outcome }
{
    match outcome {
        Outcome::Failed(fault) => verdict_of_fault(ask, fault),
        Outcome::Done | Outcome::IsStarted | Outcome::IsOnlyLoaded => Verdict::Done,
    }
}

// Was there nothing to do at this node, where others of the same command may have found something?
fn is_idle(verdict: Verdict) -> bool
    ensures { result ≡ is_idle verdict }
{
    match verdict {
        Verdict::Refused(Refusal::AlreadyStarted) | Verdict::Refused(Refusal::NeverStarted) => true,
        _ => false,
    }
}

// Did it go well?
pub(crate) fn is_done(verdict: Verdict) -> bool
    ensures { result ≡ is_done verdict }
{
    matches!(verdict, Verdict::Done)
}

/// Which of two verdicts is told, the first of which came first: an error before `ok`, and `ok` before that there was nothing to do.
pub fn weightier(one: Verdict, two: Verdict) -> Verdict
    ensures { result ≡ weightier one two }
{
    if is_idle(one) {
        return if is_idle(two) { one } else { two };
    }
    if is_done(one) && !is_idle(two) {
        two
    } else {
        one
    }
}
