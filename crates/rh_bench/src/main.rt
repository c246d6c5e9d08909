//! The jobs that a user waits for, on inputs that are made from a seed: what the benchmark (docs/PERF.md) times.
//!
//! `rh_bench JOB SEED COUNT SIZE` makes COUNT inputs of a job, none like another, gives each to the program that it is made for, and prints
//! how that ended and a digest of all that it wrote. SIZE is how many steps, plans or states an input has or allows. The job `every`
//! is all of them, one after the other. `rh_bench JOB SEED COUNT SIZE print` prints the inputs in place of what came of them.
#![tactic(auto)]

mod chance;
mod clusters;
mod digest;
mod episodes;
mod inputs;
mod jobs;
mod names;
mod scripts;
mod telling;

use jobs::{Asked, Job, asked_of};
use std::env;
use std::process::ExitCode;
use telling::{Manner, tell_inputs};

// What the words of the command line ask, if they are right.
fn asked_by(rt: &HostRuntime) -> Option<Asked> {
    let mut words = env::args(rt).ok()?;
    let _ = words.next();
    let job = words.next()?;
    let seed = words.next()?;
    let count = words.next()?;
    let size = words.next()?;
    let manner = match words.next() {
        None => Manner::Digests,
        Some(_) => Manner::Inputs,
    };
    asked_of(
        job.as_str(),
        seed.as_str(),
        count.as_str(),
        size.as_str(),
        manner,
    )
}

fn main(rt: HostRuntime) -> ExitCode {
    match asked_by(&rt) {
        None => {
            let _ = println!(rt; "usage: rh_bench {} SEED COUNT SIZE [print]", Job::NAMES);
            ExitCode::from(1)
        }
        Some(asked) => match tell_inputs(&rt, &asked) {
            Ok(()) => ExitCode::from(0),
            Err(_) => ExitCode::from(5),
        },
    }
}
