//! Laws of verifications. The function does nothing: its contract is the laws.

ghost use Rattle.rh_verify.specs.Laws.{DifferencesAreTold, NothingExpectedHolds};

/// What a verification that tells no fault says of a script each line of which is a command, a comment or blank.
pub fn differences_are_told()
    // It tells no block; and where it tells one, it tells a fault.
    ensures told { DifferencesAreTold }
    // It tells none where nothing is expected.
    ensures nothing { NothingExpectedHolds }
{}
