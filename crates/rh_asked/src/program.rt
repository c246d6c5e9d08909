//! What is done with the input.

ghost use Rattle.std.specs.Prelude.{◌≡◌};
ghost use Rattle.rh_asked.specs.Programs.{is_alone};

use crate::manner::{LintManner, Manner, SearchRoom};
use rh_otp_net::Order;
use rh_rules::Pick;

/// What is done with the input.
#[derive(Clone, Copy)]
pub enum Program {
    /// The cluster file is read, and that is all.
    Check,
    /// The same, as a line of JSON.
    CheckJson,
    /// The commands of a script are answered.
    Run(Pick),
    /// The same, by what live nodes of OTP 25.2.3 do, with messages taken in an order, in a manner.
    RunLive(Order, Manner),
    /// The same, as lines of JSON.
    RunLiveJson(Order),
    /// The commands of a script are answered, in a manner of its own.
    RunIn(Pick, Manner),
    /// The same as `Run`, as lines of JSON.
    RunJson(Pick),
    /// The same as `Run`, each command before more is read, by `rehearse_dialogue` of `rh_programs`. A reader and a writer apart are run over as by `Run`.
    Dialogue(Pick),
    /// The same, as lines of JSON.
    DialogueJson(Pick),
    /// The same as `Dialogue`, by what live nodes do, with messages taken in an order.
    DialogueLive(Order),
    /// The same, as lines of JSON.
    DialogueLiveJson(Order),
    /// The script is printed again, with what came of each command; behind the cluster file, if it is to be whole.
    Story(Pick, bool),
    /// The same, with what comes of each command on live nodes, with messages taken in an order.
    StoryLive(Order, bool),
    /// What came of each command is compared with what the script expects.
    Verify(Pick),
    /// The same, with what comes of each command on live nodes, with messages taken in an order.
    VerifyLive(Order),
    /// What is wrong with the input is listed, in a manner.
    Lint(Pick, LintManner),
    /// The same, with what comes of each step on live nodes, with messages taken in an order.
    LintLive(Order, LintManner),
    /// All states are searched that events reach from a base, in so much room, by so many workers.
    Explore(Pick, SearchRoom, usize),
    /// The same, as lines of JSON.
    ExploreJson(Pick, SearchRoom, usize),
    /// All lists of events are tried on live nodes behind a base, with messages taken in an order, so many at most; as lines of JSON, if so.
    ExploreLive(Order, usize, bool),
    /// Sessions share a cluster.
    Sessions(Pick),
    /// Plans are tried, by so many workers.
    Sweep(Pick, usize),
    /// The same, as lines of JSON.
    SweepJson(Pick, usize),
    /// Plans are tried on live nodes, with messages taken in an order, by so many workers.
    SweepLive(Order, usize),
    /// The same, as lines of JSON.
    SweepLiveJson(Order, usize),
}

impl Program {
    /// Whether it starts no threads: a search or a sweep by one worker needs none beside the caller's.
    pub fn is_alone(self) -> bool
        ensures { result ≡ is_alone self }
    {
        match self {
            Program::Sessions(_) => false,
            Program::Explore(_, _, workers) | Program::ExploreJson(_, _, workers) => workers == 1,
            Program::Sweep(_, workers) | Program::SweepJson(_, workers) => workers == 1,
            Program::SweepLive(_, workers) | Program::SweepLiveJson(_, workers) => workers == 1,
            _ => true,
        }
    }
}
