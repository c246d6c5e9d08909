//! Laws of verifications on live nodes. The function does nothing: its contract is the laws.

ghost use Rattle.rh_otp_verify.specs.Laws.{LiveDifferencesAreTold, LiveNothingExpectedHolds};

/// What a verification on live nodes that tells no fault says of a script each line of which is a command, a comment or blank.
pub fn live_differences_are_told()
    // It tells no block; and where it tells one, it tells a fault.
    ensures told { LiveDifferencesAreTold }
    // It tells none where nothing is expected.
    ensures nothing { LiveNothingExpectedHolds }
{}
