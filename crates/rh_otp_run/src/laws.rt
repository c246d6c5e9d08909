//! Laws of the definitions that the contracts of this crate cite. Each function does nothing: its contract is the law.

ghost use Rattle.rh_otp_run.specs.Laws.{PlainMannerIsBare};

/// A run on live nodes that prints no commands and isn't strict writes the answers alone, up to the first bad line, which it tells; and it
/// ends as `run` does.
pub fn plain_manner_is_bare()
    ensures { PlainMannerIsBare }
{}
