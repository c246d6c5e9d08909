//! Timers that are set.

ghost use Rattle.std.specs.Prelude.{◌≡◌, IfOk, OnOk};
ghost use Rattle.rh_otp_net.specs.Timers.{is_before, is_due, earlier};

use rh_base::{Duplicate, OutOfMemory, copies_of};
use rh_otp_model::{Message, Process};
use std::alloc::Global;
use std::marker::Model;

/// A message that is sent to a process when it is due. It was set in the step of this number.
#[derive(Drop)]
pub struct Timer {
    pub due: u64,
    pub step: u64,
    pub to: Process,
    pub message: Message,
}

impl Duplicate for Timer {
    fn copy(&self, alloc: Global) -> Result<Timer, OutOfMemory>
        ensures { IfOk result (λ copy. copy ≡ self.now) }
    {
        Ok(Timer {
            due: self.due,
            step: self.step,
            to: self.to,
            message: self.message.copy(alloc)?,
        })
    }
}

/// The timers that are set, in the order in which they were. None is ever cancelled.
#[derive(Drop)]
pub struct Timers {
    timers: Vec<Timer>,
}

/// Contracts see `Timers` as their list.
impl Model for Timers {
    ghost use Rattle.std.specs.Prelude.{List};
    ghost use Rattle.rh_otp_net.specs.declared.timers.Timer.{Timer};

    ghost Value = { List Timer };

    ghost view = { λ t. t.timers.items };
}

// Is the first time before the second? At one time what was set in an earlier step comes first.
fn is_before(one: (u64, u64), two: (u64, u64)) -> bool
    ensures { result ≡ is_before one two }
{
    one.0 < two.0 || (one.0 == two.0 && one.1 < two.1)
}

// Is the timer due at this time, and of this step?
fn is_due(time: (u64, u64), timer: &Timer) -> bool
    ensures { result ≡ is_due time timer.now }
{
    timer.due == time.0 && timer.step == time.1
}

// The earlier one of this time and the timer's.
fn earlier(least: Option<(u64, u64)>, timer: &Timer) -> Option<(u64, u64)>
    ensures { result ≡ earlier least timer.now }
{
    let time = (timer.due, timer.step);
    match least {
        Some(least) if !is_before(time, least) => Some(least),
        _ => Some(time),
    }
}

impl Timers {
    ghost use Rattle.std.specs.Prelude.{◌++◌, ◌∷◌, [], filter};
    ghost use Rattle.rh_otp_net.specs.Timers.{next_due, without_due, fired, left};

    /// None is set.
    pub fn new(alloc: Global) -> Timers
        ensures { result ≡ [] }
    {
        Timers {
            timers: Vec::new(alloc),
        }
    }

    /// As a list.
    pub fn as_slice(&self) -> &[Timer]
        ensures { result.now ≡ self.now }
    {
        self.timers.as_slice()
    }

    /// A timer is set.
    pub fn add(&mut self, timer: Timer) -> Result<(), OutOfMemory>
        ensures { OnOk result (self.new ≡ self.old ++ timer ∷ []) }
    {
        self.timers.push(timer)?;
        Ok(())
    }

    /// When the next timer is due, and the step in which it was set: of those that are due at once the earliest.
    pub fn next_due(&self) -> Option<(u64, u64)>
        ensures { result ≡ next_due self.now }
    {
        let mut least = None;
        for timer in self.as_slice() {
            least = earlier(least, timer);
        }
        least
    }

    // The timers of this time and step.
    fn due_at(&self, alloc: Global, time: (u64, u64)) -> Result<Vec<Timer>, OutOfMemory>
        ensures { IfOk result (λ timers. timers.items ≡ filter (is_due time) self.now) }
    {
        let mut timers = Vec::new(alloc);
        for timer in self.as_slice() {
            if is_due(time, timer) {
                timers.push(timer.copy(alloc)?)?;
            }
        }
        Ok(timers)
    }

    // Without the timers of this time and step.
    fn drop_due(&mut self, time: (u64, u64))
        ensures { self.new ≡ without_due time self.old }
    {
        self.timers.retain(|timer| !is_due(time, timer));
    }

    /// The timers that are due next, of the earliest step, in the order in which they were set. They are set no longer.
    pub fn fire_next(&mut self, alloc: Global) -> Result<Vec<Timer>, OutOfMemory>
        ensures fired { IfOk result (λ timers. timers.items ≡ fired self.old) }
        ensures left { OnOk result (self.new ≡ left self.old) }
    {
        let Some(time) = self.next_due() else {
            return Ok(Vec::new(alloc));
        };
        let timers = self.due_at(alloc, time)?;
        self.drop_due(time);
        Ok(timers)
    }
}

impl Duplicate for Timers {
    fn copy(&self, alloc: Global) -> Result<Timers, OutOfMemory>
        ensures { IfOk result (λ copy. copy ≡ self.now) }
    {
        Ok(Timers {
            timers: copies_of(alloc, self.timers.as_slice())?,
        })
    }
}
