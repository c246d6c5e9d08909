//! What came of a call.

/// What came of a call.
#[derive(Clone, Copy)]
pub enum Answer {
    /// It answered what it has to.
    Done,
    /// It was refused memory, and all is as before.
    Refused,
    /// This isn't as it has to be.
    Changed(&'static str),
}

impl Answer {
    /// Whether the call answered what it has to.
    pub fn of_call(is_right: bool) -> Answer {
        if is_right {
            Answer::Done
        } else {
            Answer::Changed("answer")
        }
    }

    /// The call was refused memory, and this isn't as before.
    pub fn of_refusal(changed: Option<&'static str>) -> Answer {
        match changed {
            None => Answer::Refused,
            Some(what) => Answer::Changed(what),
        }
    }
}
