//! Notices, standings, and devices that are watched.

use rh_calls::Notices;
use rh_cluster::{App, Node};
use rh_devices::{Bytes, Watched};
use rh_marks::{Answer, begin, end};
use rh_plans::Standings;
use rh_state::Standing;
use rh_step::Notice;
use std::alloc::Global;

static UP: Notice = Notice::Up { node: Node(0) };

/// What comes of the call of this name, if it is here.
pub fn answer(alloc: Global, name: &str) -> Option<Answer> {
    if name == "Notices::of" {
        Some(call_notices_of(alloc, notices(alloc)?))
    } else if name == "Standings::of" {
        Some(call_standings_of(alloc, items(alloc)?))
    } else if name == "Watched::new" {
        Some(call_watched_new(alloc))
    } else {
        call_reader(alloc, name)
    }
}

fn notices(alloc: Global) -> Option<Vec<Notice>> {
    Vec::from_slice(alloc, [UP].as_slice()).ok()
}

fn items(alloc: Global) -> Option<Vec<(App, Standing)>> {
    Vec::from_slice(alloc, [(App(0), Standing::Quiet)].as_slice()).ok()
}

fn call_notices_of(alloc: Global, notices: Vec<Notice>) -> Answer {
    begin(alloc);
    let made = Notices::of(alloc, notices);
    end(alloc);
    match made {
        Ok(made) => Answer::of_call(made.as_slice() == [UP].as_slice()),
        Err(_) => Answer::Refused,
    }
}

fn call_standings_of(alloc: Global, items: Vec<(App, Standing)>) -> Answer {
    begin(alloc);
    let made = Standings::of(alloc, items);
    end(alloc);
    match made {
        Ok(made) => Answer::of_call(made.as_slice().len() == 1),
        Err(_) => Answer::Refused,
    }
}

fn call_watched_new(alloc: Global) -> Answer {
    begin(alloc);
    let watched = Watched::new(Bytes::new(b"text".as_slice()));
    end(alloc);
    Answer::of_call(!watched.failed())
}

fn call_reader(alloc: Global, name: &str) -> Option<Answer> {
    let notices = Notices::of(alloc, notices(alloc)?).ok()?;
    let standings = Standings::of(alloc, items(alloc)?).ok()?;
    let watched = Watched::new(Bytes::new(b"text".as_slice()));
    begin(alloc);
    let is_right = is_read(&notices, &standings, name);
    let is_watched = is_asked(watched, name);
    end(alloc);
    match is_right {
        None => Some(Answer::of_call(is_watched?)),
        Some(is_right) => Some(Answer::of_call(is_right)),
    }
}

// Whether a reader of this name answers as it has to.
fn is_read(notices: &Notices, standings: &Standings, name: &str) -> Option<bool> {
    if name == "Notices::as_slice" {
        Some(notices.as_slice() == [UP].as_slice())
    } else if name == "Notices::same" {
        Some(notices.same(notices))
    } else if name == "Notices::share" {
        Some(notices.share().is_ok())
    } else if name == "Standings::as_slice" {
        Some(standings.as_slice().len() == 1)
    } else if name == "Standings::same" {
        Some(standings.same(standings))
    } else if name == "Standings::share" {
        Some(standings.share().is_ok())
    } else {
        None
    }
}

// The same of a device.
fn is_asked(watched: Watched<Bytes>, name: &str) -> Option<bool> {
    if name == "Watched::failed" {
        Some(!watched.failed())
    } else if name == "Watched::into_inner" {
        let _ = watched.into_inner();
        Some(true)
    } else {
        None
    }
}
