//! What the process has of its host, beside standard input and output.

ghost use denote.Param.Send.{IsSync};
ghost use Rattle.std.specs.Prelude.{◌≡◌, ⊤, false};
ghost use Rattle.rh_asked.specs.Programs.{IsStaffed, is_alone};
ghost use Rattle.rh_programs.specs.Status.{IsDone, StatusGives};

use crate::process::{Complain, Together};
use clap::Error;
use rh_asked::Program;
use rh_devices::{Sink, Source, Watched};
use rh_programs::{Watch, rehearse_together};
use std::alloc::Global;
use std::sync::Wait;
use std::thread::Threads;

/// The standard error.
#[derive(Drop)]
pub struct StandardError<'a, P> {
    host: &'a P,
}

impl<'a, P> StandardError<'a, P> {
    /// That of this host.
    pub fn new(host: &'a P) -> StandardError<'a, P> {
        StandardError { host }
    }
}

impl<P: Eprint> Complain for StandardError<'_, P> {
    ghost tells = { λ before after error. ⊤ };

    fn tell(&mut self, error: &Error) {
        let _ = eprint!(self.host; "{error}");
    }
}

/// Threads of the host.
#[derive(Drop)]
pub struct HostThreads<'a, T> {
    host: &'a T,
}

impl<'a, T> HostThreads<'a, T> {
    /// Those of this host.
    pub fn new(host: &'a T) -> HostThreads<'a, T> {
        HostThreads { host }
    }
}

impl<T: Threads + Wait + Sync> Together for HostThreads<'_, T> {
    // Threads may share the host.
    ghost ready = { λ threads. IsSync T.row };

    fn rehearse<S: Source, K: Sink, W: Watch>(
        &self,
        alloc: Global,
        program: Program,
        reader: &mut Watched<S>,
        writer: &mut Watched<K>,
        watch: &mut W,
    ) -> u8 {
        rehearse_together(self.host, alloc, program, reader, writer, watch)
    }
}
