//! Reports, and bytes and replies that are shared.

use crate::clusters::{PAIR, sim_behind};
use crate::first::TWO_TIMERS;
use rh_calls::{Bytes, Replies, Reply, report};
use rh_marks::{Answer, begin, end};
use rh_state::State;
use std::alloc::Global;

/// What comes of the call of this name, if it is here.
pub fn answer(alloc: Global, name: &str) -> Option<Answer> {
    if name == "report" {
        let sim = sim_behind(alloc, PAIR, TWO_TIMERS.as_slice())?;
        Some(call_report(alloc, sim.state()))
    } else if name == "Bytes::of" {
        Some(call_bytes_of(alloc, bytes(alloc)?))
    } else if name == "Bytes::as_slice" {
        Some(call_as_slice(alloc, &Bytes::of(alloc, bytes(alloc)?).ok()?))
    } else if name == "Bytes::share" {
        Some(call_bytes_share(alloc, &Bytes::of(alloc, bytes(alloc)?).ok()?))
    } else {
        answer_of_replies(alloc, name)
    }
}

fn answer_of_replies(alloc: Global, name: &str) -> Option<Answer> {
    if name == "Reply::share" {
        Some(call_reply_share(alloc, &look(alloc)?))
    } else if name == "Replies::of" {
        Some(call_replies_of(alloc, look(alloc)?))
    } else if name == "Replies::into_one" {
        Some(call_into_one(alloc, Replies::of(look(alloc)?).ok()?))
    } else if name == "Replies::into_three" {
        Some(call_into_three(alloc, Replies::of(look(alloc)?).ok()?))
    } else {
        None
    }
}

// The reply to a look.
fn look(alloc: Global) -> Option<Reply> {
    let text = Bytes::of(alloc, bytes(alloc)?).ok()?;
    Some(Reply::Seen {
        cursor: 0,
        trail: 2,
        text,
    })
}

// Is this the reply to that look?
fn is_look(reply: &Reply) -> bool {
    match reply {
        Reply::Seen {
            cursor,
            trail,
            text,
        } => *cursor == 0 && *trail == 2 && text.as_slice() == b"now 0".as_slice(),
        _ => false,
    }
}

fn call_reply_share(alloc: Global, reply: &Reply) -> Answer {
    begin(alloc);
    let shared = reply.share();
    end(alloc);
    match shared {
        Ok(shared) => Answer::of_call(is_look(&shared)),
        Err(_) => Answer::Changed("answer"),
    }
}

fn call_replies_of(alloc: Global, reply: Reply) -> Answer {
    begin(alloc);
    let replies = Replies::of(reply);
    end(alloc);
    match replies {
        Ok(replies) => Answer::of_call(is_look(&replies.into_one())),
        Err(_) => Answer::Changed("answer"),
    }
}

fn call_into_one(alloc: Global, replies: Replies) -> Answer {
    begin(alloc);
    let reply = replies.into_one();
    end(alloc);
    Answer::of_call(is_look(&reply))
}

fn call_into_three(alloc: Global, replies: Replies) -> Answer {
    begin(alloc);
    let (logged, kept, told) = replies.into_three();
    end(alloc);
    Answer::of_call(is_look(&logged) && is_look(&kept) && is_look(&told))
}

fn bytes(alloc: Global) -> Option<Vec<u8>> {
    Vec::from_slice(alloc, b"now 0".as_slice()).ok()
}

fn call_report(alloc: Global, state: &State) -> Answer {
    begin(alloc);
    let text = report(alloc, state);
    end(alloc);
    match text {
        Ok(text) => Answer::of_call(text.as_slice().starts_with(b"now 1000\n".as_slice())),
        Err(_) => Answer::Refused,
    }
}

fn call_bytes_of(alloc: Global, bytes: Vec<u8>) -> Answer {
    begin(alloc);
    let made = Bytes::of(alloc, bytes);
    end(alloc);
    match made {
        Ok(made) => Answer::of_call(made.as_slice() == b"now 0".as_slice()),
        Err(_) => Answer::Refused,
    }
}

fn call_as_slice(alloc: Global, bytes: &Bytes) -> Answer {
    begin(alloc);
    let is_right = bytes.as_slice() == b"now 0".as_slice();
    end(alloc);
    Answer::of_call(is_right)
}

fn call_bytes_share(alloc: Global, bytes: &Bytes) -> Answer {
    begin(alloc);
    let shared = bytes.share();
    end(alloc);
    match shared {
        Ok(shared) => Answer::of_call(shared.same(bytes)),
        Err(_) => Answer::Changed("answer"),
    }
}
