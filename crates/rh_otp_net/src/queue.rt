//! Messages on their way, the one that was sent first in front.

ghost use Rattle.std.specs.Prelude.{◌≡◌, ◌<◌, ◌≤◌, IfSome, length, position};
ghost use Rattle.rh_otp_net.specs.Queue.{is_of_pair, first_of_pair};

use crate::alike::is_process;
use rh_otp_model::Envelope;

// Does the second message go from the same process to the same process as the first?
fn is_of_pair(one: &Envelope, two: &Envelope) -> bool
    ensures { result ≡ is_of_pair one.now two.now }
{
    is_process(one.from, two.from) && is_process(one.to, two.to)
}

// The place of the first of these messages that is of the same pair as this one.
fn place_like(message: &Envelope, messages: &[Envelope]) -> Option<usize>
    ensures place { result ≡ position (is_of_pair message.now) messages.now }
    ensures within { IfSome result (λ place. place < length messages.now) }
{
    messages.iter().position(|other| is_of_pair(message, other))
}

/// The place of the first message that goes from the same process to the same process as the one at this place, since messages of a
/// pair keep their order; this place where there is none.
pub fn first_of_pair(messages: &[Envelope], place: usize) -> usize
    ensures first { result ≡ first_of_pair messages.now place }
    ensures up_to { result ≤ place }
{
    let Some(message) = messages.get(place) else {
        return place;
    };
    match place_like(message, &messages[..place]) {
        Some(first) => first,
        None => place,
    }
}
