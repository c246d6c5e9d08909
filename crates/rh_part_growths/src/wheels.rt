//! Timers: three, of which two are armed.

ghost use Rattle.std.specs.Prelude.{◌≡◌, true, IfSome};
ghost use Rattle.rh_wheel.specs.Edits.{exchange};
ghost use Rattle.rh_wheel.specs.Formed.{IsFormed};

use rh_marks::{Answer, begin, end};
use rh_wheel::{TimerEdit, Wheel};
use std::alloc::Global;

/// What comes of the call of this name, if it is here.
pub fn answer(alloc: Global, name: &str) -> Option<Answer> {
    let mut wheel = two_timers(alloc)?;
    of_wheel(alloc, &mut wheel, name)
}

// The same of a call of that wheel.
fn of_wheel(alloc: Global, wheel: &mut Wheel, name: &str) -> Option<Answer> {
    if name == "Wheel::new" {
        Some(call_new(alloc))
    } else if name == "Wheel::copy" {
        Some(call_copy(alloc, wheel))
    } else if name == "Wheel::arm" {
        call_arm(alloc, wheel)
    } else if name == "Wheel::cancel" {
        call_cancel(alloc, wheel)
    } else if name == "Wheel::revert" {
        call_revert(alloc, wheel)
    } else if name == "Wheel::reapply" {
        call_reapply(alloc, wheel)
    } else {
        call_reader(alloc, wheel, name)
    }
}

fn call_reader(alloc: Global, wheel: &Wheel, name: &str) -> Option<Answer> {
    begin(alloc);
    let is_right = is_read(wheel, name);
    end(alloc);
    Some(Answer::of_call(is_right?))
}

// Two timers that are due together.
fn two_timers(alloc: Global) -> Option<Wheel> {
    let mut wheel = Wheel::new(alloc, 3).ok()?;
    arm_two(&mut wheel)?;
    Some(wheel)
}

fn arm_two(wheel: &mut Wheel) -> Option<()> {
    arm(wheel, 2)?;
    arm(wheel, 0)
}

// Arms a timer.
fn arm(wheel: &mut Wheel, timer: u32) -> Option<()> {
    if timer >= wheel.timer_count() || wheel.due_of(timer).is_some() {
        return None;
    }
    let _ = wheel.arm(timer, 100);
    Some(())
}

fn call_new(alloc: Global) -> Answer {
    begin(alloc);
    let made = Wheel::new(alloc, 3);
    end(alloc);
    match made {
        Ok(wheel) => Answer::of_call(wheel.timer_count() == 3),
        Err(_) => Answer::Refused,
    }
}

fn call_copy(alloc: Global, wheel: &Wheel) -> Answer {
    begin(alloc);
    let copy = wheel.copy(alloc);
    end(alloc);
    match copy {
        Ok(copy) => Answer::of_call(copy.same_words(wheel)),
        Err(_) => Answer::Refused,
    }
}

// Whether a reader of this name answers as it has to.
fn is_read(wheel: &Wheel, name: &str) -> Option<bool> {
    if name == "Wheel::earliest" {
        Some(wheel.earliest() == Some((100, 2)))
    } else if name == "Wheel::due_of" {
        Some(wheel.due_of(0) == Some(100))
    } else if name == "Wheel::same_words" {
        Some(wheel.same_words(wheel))
    } else if name == "Wheel::timer_count" {
        Some(wheel.timer_count() == 3)
    } else {
        None
    }
}

fn call_arm(alloc: Global, wheel: &mut Wheel) -> Option<Answer> {
    begin(alloc);
    let armed = arm(wheel, 1);
    end(alloc);
    armed?;
    Some(Answer::of_call(wheel.due_of(1) == Some(100)))
}

// Cancels the first timer.
fn cancel(wheel: &mut Wheel) -> Option<TimerEdit>
    ensures done { IfSome result (λ edit. edit.is_done ≡ true) }
    ensures exact { IfSome result (λ edit. exchange wheel.new edit ≡ wheel.old) }
    ensures formed { IsFormed wheel.old }
{
    wheel.formed();
    if wheel.due_of(0).is_none() {
        return None;
    }
    Some(wheel.cancel(0))
}

fn call_cancel(alloc: Global, wheel: &mut Wheel) -> Option<Answer> {
    begin(alloc);
    let edit = cancel(wheel);
    end(alloc);
    let _ = edit?;
    Some(Answer::of_call(wheel.due_of(0).is_none()))
}

fn call_revert(alloc: Global, wheel: &mut Wheel) -> Option<Answer> {
    let mut edit = cancel(wheel)?;
    begin(alloc);
    wheel.revert(&mut edit);
    end(alloc);
    Some(Answer::of_call(wheel.due_of(0) == Some(100)))
}

fn call_reapply(alloc: Global, wheel: &mut Wheel) -> Option<Answer> {
    let mut edit = cancel(wheel)?;
    wheel.formed();
    wheel.revert(&mut edit);
    if edit.is_done() {
        return None;
    }
    begin(alloc);
    wheel.reapply(&mut edit);
    end(alloc);
    Some(Answer::of_call(wheel.due_of(0).is_none()))
}
