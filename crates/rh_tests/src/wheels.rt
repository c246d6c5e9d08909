//! Timers in firing order.

use rh_wheel::Wheel;
use std::alloc::Global;
use std::process::Abort;
use std::test::Fail;

// Three timers in one slot, of which two are due together.
fn arm_three(rt: &impl Abort, wheel: &mut Wheel) {
    assert!(rt; wheel.timer_count() == 3 && wheel.earliest().is_none());
    wheel.arm(2, 100);
    wheel.arm(0, 36);
    wheel.arm(1, 100);
}

// The first of those that are due together is cancelled, and that is taken back.
fn take_back(rt: &impl Abort, wheel: &mut Wheel) {
    assert!(rt; wheel.due_of(2) == Some(100));
    wheel.formed();
    let mut edit = wheel.cancel(2);
    assert!(rt; edit.is_done() && wheel.due_of(2).is_none());
    wheel.revert(&mut edit);
    assert!(rt; !edit.is_done() && wheel.due_of(2) == Some(100));
}

fn fire_in_order(rt: &impl Abort, wheel: &mut Wheel) {
    assert!(rt; wheel.earliest() == Some((36, 0)) && wheel.due_of(0) == Some(36));
    wheel.cancel(0);
    assert!(rt; wheel.earliest() == Some((100, 2)) && wheel.due_of(0).is_none());
}

// Has a copy the same timers?
fn is_copied(rt: &impl Abort, alloc: Global, wheel: &Wheel) {
    let copy = wheel.copy(alloc).ok().expect(rt, "memory");
    assert!(rt; copy.earliest() == Some((100, 2)) && copy.same_words(wheel));
}

#[test]
fn due_together_in_the_order_of_arming(rt: HostRuntime) -> Result<(), Fail> {
    let mut wheel = Wheel::new(rt.alloc(), 3)?;
    arm_three(&rt, &mut wheel);
    take_back(&rt, &mut wheel);
    fire_in_order(&rt, &mut wheel);
    is_copied(&rt, rt.alloc(), &wheel);
    Ok(())
}
