//! The laws of `global`'s locks. Each function does nothing: its contract is the law.

ghost use Rattle.rh_otp_locks.specs.Holding.{LocksAreHeldForSomething, NobodyHasALockAtRest};

/// In any state that live nodes reach, no lock of `global` is held for nothing. Its owner is there still: the process of a call, which has
/// it by a name of its own, has asked its dist_ac and waits for the answer; or the dist_ac of a node, which has it by the name of all that
/// synchronise while it waits for what others tell of themselves, or by a name of its own in the middle of a start for which its
/// controller asked.
pub fn locks_are_held_for_something()
    ensures { LocksAreHeldForSomething }
{}

/// So where live nodes are at rest, with no call open, nobody has a lock.
pub fn nobody_has_a_lock_at_rest()
    ensures { NobodyHasALockAtRest }
{}
