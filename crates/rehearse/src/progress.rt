//! How far a search is, on the standard error.

use rh_programs::Watch;
use std::time::{Clock, Instant};

/// A line on the standard error that tells how far a search is. It is written anew each second, and taken off in the end.
#[derive(Drop)]
pub struct Progress<'a, P> {
    host: &'a P,
    // Since when seconds are counted, if anything is told.
    began: Option<Instant>,
    // How many had gone when it was told last.
    told: u64,
}

impl<'a, P: Clock> Progress<'a, P> {
    /// That of this host. Where its standard error is no terminal, nothing is told.
    pub fn new(host: &'a P, is_terminal: bool) -> Progress<'a, P> {
        let began = if is_terminal {
            Instant::now(host).ok()
        } else {
            None
        };
        Progress {
            host,
            began,
            told: 0,
        }
    }

    // How many whole seconds have gone, if anything is told.
    fn seconds(&self) -> u64 {
        match self.began {
            Some(began) => match began.elapsed(self.host) {
                Ok(gone) => gone.as_secs(),
                Err(_) => 0,
            },
            None => 0,
        }
    }
}

impl<P: Eprint + Clock> Watch for Progress<'_, P> {
    fn tell(&mut self, states: usize, deepest: u32) {
        let seconds = self.seconds();
        if seconds <= self.told {
            return;
        }
        self.told = seconds;
        let rate = states as u64 / seconds;
        let _ = eprint!(self.host;
            "\r{states} states, {deepest} events deep, {rate} states a second "
        );
    }

    fn end(&mut self) {
        if self.told > 0 {
            self.told = 0;
            let _ = eprint!(self.host; "\r\u{1b}[K");
        }
    }
}
