//! Laws of the definitions of a step. Each function does nothing: its contract is the law.

ghost use Rattle.rh_keys.specs.ShiftLaws.{AlikeAcceptAlike, NextCommutesWithShifts};

/// Two states that are equal but for the clock, the incarnations and the start kinds, with timers counted from now, go on to
/// states that are, and their steps tell the same.
pub fn next_commutes_with_shifts()
    ensures { NextCommutesWithShifts }
{}

/// Two such states accept the same events, where no limit of starts or of time refuses one.
pub fn alike_accept_alike()
    ensures { AlikeAcceptAlike }
{}
