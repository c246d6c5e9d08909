//! The jobs, and what the command line asks of them.

use crate::telling::Manner;

/// What is done again and again, with other inputs.
#[derive(Clone, Copy)]
pub enum Job {
    /// All states are searched that crashes, boots and time lead to.
    Explore,
    /// It is listed what a live cluster does otherwise at each step.
    Lint,
    /// Plans are tried.
    Sweep,
    /// A long script is answered, and undone and redone.
    Run,
    /// A long script is told with its answers, as text and as JSON, and verified.
    Tell,
    /// All of that with the largest clusters, in which each application may run everywhere.
    Largest,
    /// Where most applications are local: plans are tried, a script of changes by hand is answered, and one of episodes is told.
    Local,
    /// As `Explore`, but with fewer applications, so that the states are more or fewer by the seed.
    ExploreFew,
}

impl Job {
    /// The words for jobs.
    pub const NAMES: &'static str = "explore|lint|sweep|run|tell|largest|local|explore-few|every";
}

/// What the command line asks.
#[derive(Clone, Copy)]
pub struct Asked {
    /// One job, or every one.
    pub job: Option<Job>,
    pub seed: u64,
    /// How many inputs.
    pub count: u64,
    /// How many steps, plans or states an input has or allows.
    pub size: usize,
    pub manner: Manner,
}

// The job with this name; `None` within is every one.
fn job_named(name: &str) -> Option<Option<Job>> {
    match name {
        "explore" => Some(Some(Job::Explore)),
        "lint" => Some(Some(Job::Lint)),
        "sweep" => Some(Some(Job::Sweep)),
        "run" => Some(Some(Job::Run)),
        "tell" => Some(Some(Job::Tell)),
        "largest" => Some(Some(Job::Largest)),
        "local" => Some(Some(Job::Local)),
        "explore-few" => Some(Some(Job::ExploreFew)),
        "every" => Some(None),
        _ => None,
    }
}

/// What these words ask, if each is right. A seed is below 2^32, and so are a count and a size.
pub fn asked_of(job: &str, seed: &str, count: &str, size: &str, manner: Manner) -> Option<Asked> {
    let job = job_named(job)?;
    let seed = seed.parse::<u32>().ok()?;
    let count = count.parse::<u32>().ok()?;
    let size = size.parse::<u32>().ok()?;
    Some(Asked {
        job,
        seed: u64::from(seed),
        count: u64::from(count),
        size: size as usize,
        manner,
    })
}
