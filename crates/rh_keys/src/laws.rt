//! A law of the definitions that the contracts of this crate cite. The function does nothing: its contract is the law.

ghost use Rattle.rh_keys.specs.Laws.{KeysTellApart};

/// Two states of one cluster are alike, as they are read, exactly if their keys are equal.
pub fn keys_tell_apart()
    ensures { KeysTellApart }
{}
