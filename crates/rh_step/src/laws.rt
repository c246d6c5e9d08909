//! Laws of the definitions that the contracts of this crate cite. Each function does nothing: its contract is the law.

ghost use Rattle.rh_step.specs.Laws.{FirstIsValid, NextIsValid, NextIsAllowed, TicksAddUp, TimeGoesOn};

/// The first state of a cluster is one that it reaches.
pub fn first_is_valid()
    ensures { FirstIsValid }
{}

/// A step from a state that a cluster reaches leads to one that it reaches.
pub fn next_is_valid()
    ensures { NextIsValid }
{}

/// The outcome of a step that is taken is one that the rules allow.
pub fn next_is_allowed()
    ensures { NextIsAllowed }
{}

/// A tick of a + b milliseconds does what a tick of a and then one of b do, where both are accepted.
pub fn ticks_add_up()
    ensures { TicksAddUp }
{}

/// Time never runs backwards.
pub fn time_goes_on()
    ensures { TimeGoesOn }
{}
