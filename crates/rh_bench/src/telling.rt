//! What the programs answer to the inputs of a job.

use crate::chance::Chance;
use crate::clusters::Shape;
use crate::digest::digest_of;
use crate::inputs::{
    FEW, LARGEST, MIDDLE, WAITING, changes_text, episode_plans_text, episodes_text, large,
    looks_text, plans_text, real, rounds_text, search_text, steps_text, turns_text,
};
use crate::jobs::{Asked, Job};
use rh_base::OutOfMemory;
use rh_devices::{Bytes, Text, Watched};
use rh_lint::LintManner;
use rh_programs::{Nobody, Program, SearchRoom, rehearse_alone};
use rh_rules::Pick;
use std::alloc::{AllocError, Global};
use std::io;
use std::rt::Runtime;

/// Why not all was told.
#[derive(Drop)]
pub enum Untold {
    /// A growth was refused.
    OutOfMemory,
    /// It couldn't be printed.
    Unprinted,
}

impl From<OutOfMemory> for Untold {
    fn from(_error: OutOfMemory) -> Untold {
        Untold::OutOfMemory
    }
}

impl From<AllocError> for Untold {
    fn from(_error: AllocError) -> Untold {
        Untold::OutOfMemory
    }
}

impl From<io::Error> for Untold {
    fn from(_error: io::Error) -> Untold {
        Untold::Unprinted
    }
}

/// What is printed of each input.
#[derive(Clone, Copy)]
pub enum Manner {
    /// How the program ended, and a digest of what it wrote.
    Digests,
    /// The input itself.
    Inputs,
}

const LINT: LintManner = LintManner {
    all: true,
    strict: false,
    json: false,
};

// All that a program without threads writes of an input, and how it ends.
fn answer_of(alloc: Global, program: Program, input: &[u8]) -> Option<(u8, Vec<u8>)> {
    if !program.is_alone() {
        return None;
    }
    let mut reader = Watched::new(Bytes::new(input));
    let mut writer = Watched::new(Text::new(alloc));
    let status = rehearse_alone(alloc, program, &mut reader, &mut writer, &mut Nobody);
    let bytes = writer.into_inner().into_bytes()?;
    Some((status, bytes))
}

// What tells of inputs, and where.
#[derive(Drop)]
struct Teller<'a, T> {
    rt: &'a T,
    manner: Manner,
}

impl<'a, T: Runtime<A = Global>> Teller<'a, T> {
    // Gives an input to a program and prints what came of it, or prints the input alone. The answer is what the program wrote.
    fn tell(&self, name: &str, program: Program, input: &str) -> Result<String, Untold> {
        let alloc = self.rt.alloc();
        match self.manner {
            Manner::Digests => self.tell_answer(name, program, input),
            Manner::Inputs => {
                println!(self.rt; "{name}\n{input}")?;
                Ok(String::new(alloc))
            }
        }
    }

    // Gives an input to a program, and prints what came of it.
    fn tell_answer(&self, name: &str, program: Program, input: &str) -> Result<String, Untold> {
        let Some((status, bytes)) = answer_of(self.rt.alloc(), program, input.as_bytes()) else {
            return Err(Untold::OutOfMemory);
        };
        let digest = digest_of(bytes.as_slice());
        let count = bytes.len();
        println!(self.rt; "{name}: status {status}, {count} bytes, digest {digest}")?;
        match String::from_utf8(bytes) {
            Ok(text) => Ok(text),
            Err(_) => Ok(String::new(self.rt.alloc())),
        }
    }

    // Two searches, of this small cluster, that waits, and of a larger one.
    fn tell_searches(&self, chance: &mut Chance, shape: &Shape, size: usize) -> Result<(), Untold> {
        let alloc = self.rt.alloc();
        let waiting = search_text(alloc, chance, shape, 6)?;
        let small = Program::Explore(Pick::First, room_for(size), 1);
        let _ = self.tell("explore", small, waiting.as_str())?;
        let middle = search_text(alloc, chance, &MIDDLE, 3)?;
        let more = Program::Explore(Pick::First, room_for(size / 8), 1);
        let _ = self.tell("explore more", more, middle.as_str())?;
        Ok(())
    }

    // A long script, told and told again.
    fn tell_tale(&self, chance: &mut Chance, number: u64, size: usize) -> Result<(), Untold> {
        let text = looks_text(self.rt.alloc(), chance, large(number), size)?;
        let story = self.tell("story", Program::Story(Pick::First, true), text.as_str())?;
        let _ = self.tell("verify", Program::Verify(Pick::First), story.as_str())?;
        let _ = self.tell("json", Program::RunJson(Pick::First), text.as_str())?;
        Ok(())
    }

    // The largest clusters.
    fn tell_largest(&self, chance: &mut Chance, size: usize) -> Result<(), Untold> {
        let alloc = self.rt.alloc();
        let rounds = rounds_text(alloc, chance, &LARGEST, size)?;
        let _ = self.tell("check", Program::Check, rounds.as_str())?;
        let _ = self.tell("run", Program::Run(Pick::Last), rounds.as_str())?;
        let looks = looks_text(alloc, chance, &LARGEST, size)?;
        let _ = self.tell("run with looks", Program::Run(Pick::First), looks.as_str())?;
        let steps = steps_text(alloc, chance, &LARGEST, size / 16)?;
        let _ = self.tell("lint", Program::Lint(Pick::First, LINT), steps.as_str())?;
        let search = search_text(alloc, chance, &LARGEST, 2)?;
        let few = Program::Explore(Pick::First, room_for(size / 4), 1);
        let _ = self.tell("explore", few, search.as_str())?;
        Ok(())
    }

    // Clusters whose applications are mostly local.
    fn tell_local(&self, chance: &mut Chance, number: u64, size: usize) -> Result<(), Untold> {
        let alloc = self.rt.alloc();
        let shape = real(number);
        let plans = episode_plans_text(alloc, chance, shape, size / 4)?;
        let _ = self.tell("sweep", Program::Sweep(Pick::First, 1), plans.as_str())?;
        let changes = changes_text(alloc, chance, shape, size)?;
        let _ = self.tell("run", Program::Run(Pick::First), changes.as_str())?;
        let episodes = episodes_text(alloc, chance, shape, size)?;
        let story = Program::Story(Pick::First, true);
        let _ = self.tell("story", story, episodes.as_str())?;
        Ok(())
    }

    // What a job does with the input of this number.
    fn tell_job(
        &self,
        job: Job,
        chance: &mut Chance,
        number: u64,
        size: usize,
    ) -> Result<(), Untold> {
        let alloc = self.rt.alloc();
        match job {
            Job::Explore => self.tell_searches(chance, &WAITING, size),
            Job::ExploreFew => self.tell_searches(chance, &FEW, size),
            Job::Lint => {
                let text = steps_text(alloc, chance, large(number), size)?;
                let _ = self.tell("lint", Program::Lint(Pick::First, LINT), text.as_str())?;
                Ok(())
            }
            Job::Sweep => {
                let text = plans_text(alloc, chance, large(number), size)?;
                let _ = self.tell("sweep", Program::Sweep(Pick::First, 1), text.as_str())?;
                Ok(())
            }
            Job::Run => {
                let text = turns_text(alloc, chance, large(number), size, 4)?;
                let _ = self.tell("run", Program::Run(Pick::First), text.as_str())?;
                Ok(())
            }
            Job::Tell => self.tell_tale(chance, number, size),
            Job::Largest => self.tell_largest(chance, size),
            Job::Local => self.tell_local(chance, number, size),
        }
    }

    // What each job does with it.
    fn tell_every(&self, chance: &mut Chance, number: u64, size: usize) -> Result<(), Untold> {
        for job in JOBS.iter() {
            self.tell_job(*job, chance, number, size)?;
        }
        Ok(())
    }
}

static JOBS: [Job; 8] = [
    Job::ExploreFew,
    Job::Lint,
    Job::Sweep,
    Job::Run,
    Job::Tell,
    Job::Largest,
    Job::Explore,
    Job::Local,
];

/// Prints what comes of the inputs that were asked for: each has a seed of its own.
pub fn tell_inputs<T: Runtime<A = Global>>(rt: &T, asked: &Asked) -> Result<(), Untold> {
    let teller = Teller {
        rt,
        manner: asked.manner,
    };
    for number in 0..asked.count {
        let mut chance = Chance::of(asked.seed.wrapping_mul(1_000_003).wrapping_add(number));
        match asked.job {
            Some(job) => teller.tell_job(job, &mut chance, number, asked.size)?,
            None => teller.tell_every(&mut chance, number, asked.size)?,
        }
    }
    Ok(())
}

// Room for so many states, whatever they take.
fn room_for(states: usize) -> SearchRoom {
    SearchRoom {
        states,
        mebibytes: 1_048_576,
    }
}
