//! The table of commands: the word of each, what stands behind it, and the call that it asks.

ghost use Rattle.std.specs.Prelude.{◌≡◌, position};
ghost use Rattle.std.specs.Str.{bytes_eq};
ghost use Rattle.rh_script.specs.Forms.{word_of, arguments_of, verb_named, event_of, call_of, at_place, said_event, said};
ghost use Rattle.rh_script.specs.Forms.{with_node, with_app, with_restart, with_truth, with_ending, with_ms};

use rh_calls::Call;
use rh_cluster::{App, Node, Restart};
use rh_rules::Event;

/// What stands behind the word of a command.
#[derive(Clone, Copy, Debug, PartialEq, Eq)]
pub enum Argument {
    /// The name of a node.
    Node,
    /// The name of an application.
    App,
    /// A restart type (application(3), `start/2`).
    Restart,
    /// Whether an application may run: `true` or `false`.
    Truth,
    /// How an application ends: `normal` or `abnormal`.
    Ending,
    /// A number of milliseconds.
    Milliseconds,
}

static NONE: [Argument; 0] = [];

static NODE: [Argument; 1] = [Argument::Node];

static APP: [Argument; 1] = [Argument::App];

static MILLISECONDS: [Argument; 1] = [Argument::Milliseconds];

static NODE_APP: [Argument; 2] = [Argument::Node, Argument::App];

static APP_RESTART: [Argument; 2] = [Argument::App, Argument::Restart];

static NODE_APP_RESTART: [Argument; 3] = [Argument::Node, Argument::App, Argument::Restart];

static NODE_APP_TRUTH: [Argument; 3] = [Argument::Node, Argument::App, Argument::Truth];

static NODE_APP_ENDING: [Argument; 3] = [Argument::Node, Argument::App, Argument::Ending];

/// The commands of a script.
///
/// What is said of each is what the help of `run` and the documents say of it (docs/make): what it does, what it needs, else
/// it is refused, which notices may be told of what follows, its line of help, and an example.
#[derive(Clone, Copy, Debug, PartialEq, Eq)]
pub enum Verb {
    /// Starts node N: it waits for its nodes, and comes up at once if it has to wait for none.
    ///
    /// - Needs: N is down (S3) and was started fewer than 9,999 times (S4)
    /// - Tells: up, started, stopped, waits
    /// - Help: starts node N
    /// - Example: boot a@x
    Boot,
    /// Ends N, without a warning; it stands for `init:stop()` too.
    ///
    /// - Needs: N waits or is up (S5)
    /// - Tells: ended, started
    /// - Help: ends node N without a warning
    /// - Example: crash a@x
    Crash,
    /// Lets D milliseconds pass; timers fire in their order. D is decimal digits, 1 to 10^12.
    ///
    /// - Needs: D isn't 0 (S6), the clock stays within 10^12 (S7)
    /// - Tells: up, ended, started, stopped, waits
    /// - Help: lets D milliseconds pass
    /// - Example: tick 5000
    Tick,
    /// `application:start(A, T)` at N. A distributed one runs at one of the nodes that have it started, or is held ready here.
    ///
    /// - Needs: N is up (S8), A is listed there (S10) and not started there (S11), all that A needs runs there (S17)
    /// - Tells: started, stopped, waits
    /// - Help: starts application A at node N
    /// - Example: start a@x web permanent
    Start,
    /// `application:stop(A)` at N; elsewhere nothing starts.
    ///
    /// - Needs: N is up (S8), A is started there (S12)
    /// - Tells: stopped
    /// - Help: stops A at N
    /// - Example: stop a@x web
    Stop,
    /// `application:permit(A, B)` at N; B is `true` or `false`. Whether a permission that is given back pulls A back to N, the
    /// [profile](CLUSTER_FILES.md#the-profile-profile-n) says.
    ///
    /// - Needs: N is up (S8)
    /// - Tells: started, stopped
    /// - Help: lets A run at N, or forbids it
    /// - Example: permit a@x web false
    Permit,
    /// `application:takeover(A, T)` at N: A moves there from where it runs.
    ///
    /// - Needs: N is up (S8), A is distributed (S9), listed there (S10), runs (S13) elsewhere (S14), may run there (S16), and all that
    ///   it needs does (S17)
    /// - Tells: started, stopped
    /// - Help: moves A to N from where it runs
    /// - Example: takeover a@x web permanent
    Takeover,
    /// A, running at N, ends by itself; R is `normal` or `abnormal`.
    ///
    /// - Needs: N is up (S8), A runs there (S15)
    /// - Tells: stopped, ended, started
    /// - Help: A, running at N, ends by itself
    /// - Example: exit a@x web abnormal
    Exit,
    /// `application:start(A, T)` at each node of A's list that is up and where A isn't started, in one step: A runs at the best of
    /// them at once.
    ///
    /// - Needs: some node of A's list is up (S8), A is distributed (S9), not yet started at each of those that are up (S11), and all
    ///   that A needs runs at each of those where it is to be started (S17)
    /// - Tells: started, stopped, waits
    /// - Help: starts A at all its nodes
    /// - Example: start_all web permanent
    StartAll,
    /// `application:stop(A)` at each node where A is started, in one step.
    ///
    /// - Needs: A is distributed (S9), and started at some node (S12)
    /// - Tells: stopped
    /// - Help: stops A at all its nodes
    /// - Example: stop_all web
    StopAll,
    /// Takes the last step back.
    ///
    /// - Needs: there is one (`at_start`)
    /// - Help: takes the last step back
    /// - Example: undo
    Undo,
    /// Makes the step again that was taken back last.
    ///
    /// - Needs: there is one (`at_end`)
    /// - Help: makes the next step again
    /// - Example: redo
    Redo,
    /// Takes all steps back.
    ///
    /// - Help: takes all steps back
    /// - Example: undo_all
    UndoAll,
    /// Makes all steps again that were taken back.
    ///
    /// - Help: makes all steps again
    /// - Example: redo_all
    RedoAll,
    /// Prints the state.
    ///
    /// - Help: shows the state of the cluster
    /// - Example: show
    Show,
}

/// All of them, in the order in which they are told of.
pub static VERBS: [Verb; 15] = [
    Verb::Boot,
    Verb::Crash,
    Verb::Tick,
    Verb::Start,
    Verb::Stop,
    Verb::Permit,
    Verb::Takeover,
    Verb::Exit,
    Verb::StartAll,
    Verb::StopAll,
    Verb::Undo,
    Verb::Redo,
    Verb::UndoAll,
    Verb::RedoAll,
    Verb::Show,
];

/// How a command is written: its word, and what stands behind it.
#[derive(Clone, Copy)]
pub struct Form {
    pub word: &'static str,
    pub arguments: &'static [Argument],
}

impl Verb {
    /// How it is written.
    pub fn form(self) -> Form
        ensures word { result.word.now ≡ word_of self }
        ensures arguments { result.arguments.now ≡ arguments_of self }
    {
        match self {
            Verb::Boot => form_of("boot", NODE.as_slice()),
            Verb::Crash => form_of("crash", NODE.as_slice()),
            Verb::Tick => form_of("tick", MILLISECONDS.as_slice()),
            Verb::Start => form_of("start", NODE_APP_RESTART.as_slice()),
            Verb::Stop => form_of("stop", NODE_APP.as_slice()),
            Verb::Permit => form_of("permit", NODE_APP_TRUTH.as_slice()),
            Verb::Takeover => form_of("takeover", NODE_APP_RESTART.as_slice()),
            Verb::Exit => form_of("exit", NODE_APP_ENDING.as_slice()),
            Verb::StartAll => form_of("start_all", APP_RESTART.as_slice()),
            Verb::StopAll => form_of("stop_all", APP.as_slice()),
            Verb::Undo => form_of("undo", NONE.as_slice()),
            Verb::Redo => form_of("redo", NONE.as_slice()),
            Verb::UndoAll => form_of("undo_all", NONE.as_slice()),
            Verb::RedoAll => form_of("redo_all", NONE.as_slice()),
            Verb::Show => form_of("show", NONE.as_slice()),
        }
    }
}

// This word, and behind it these arguments.
fn form_of(word: &'static str, arguments: &'static [Argument]) -> Form
    ensures word { result.word.now ≡ word.now }
    ensures arguments { result.arguments.now ≡ arguments.now }
{
    Form { word, arguments }
}

// Is this the word of the command?
fn is_word(word: &str, verb: Verb) -> bool
    ensures { result ≡ bytes_eq word.now (word_of verb) }
{
    word == verb.form().word
}

// The place of the first of these commands that has this word.
fn place_of(word: &str, verbs: &[Verb]) -> Option<usize>
    ensures { result ≡ position (λ v. bytes_eq word.now (word_of v)) verbs.now }
{
    verbs.iter().position(|verb| is_word(word, *verb))
}

/// The command with this word.
#[tactic(auto, unfolding(crate::specs::Forms::verb_named))]
pub fn verb_named(word: &str) -> Option<Verb>
    ensures { result ≡ verb_named word.now }
{
    let verbs = VERBS.as_slice();
    let at = place_of(word, verbs)?;
    verbs.get(at).copied()
}

/// What is given to a command, at most one of each kind.
#[derive(Clone, Copy, Debug, PartialEq, Eq)]
pub struct Given {
    pub node: Option<Node>,
    pub app: Option<App>,
    pub restart: Option<Restart>,
    /// Whether an application may run.
    pub truth: Option<bool>,
    /// Whether it ends for a normal reason.
    pub ending: Option<bool>,
    pub ms: Option<u64>,
}

/// Nothing is given.
pub const NOTHING: Given = Given {
    node: None,
    app: None,
    restart: None,
    truth: None,
    ending: None,
    ms: None,
};

// The event that a command is with what is given to it. There is none where something is missing, or the command is no event.
fn event_of(verb: Verb, given: Given) -> Option<Event>
    ensures { result ≡ event_of verb given }
{
    Some(match verb {
        Verb::Boot => Event::Boot { node: given.node? },
        Verb::Crash => Event::Crash { node: given.node? },
        Verb::Tick => Event::Tick { ms: given.ms? },
        Verb::Start => Event::Start {
            node: given.node?,
            app: given.app?,
            restart: given.restart?,
        },
        Verb::Stop => Event::Stop {
            node: given.node?,
            app: given.app?,
        },
        Verb::Permit => Event::Permit {
            node: given.node?,
            app: given.app?,
            allow: given.truth?,
        },
        Verb::Takeover => Event::Takeover {
            node: given.node?,
            app: given.app?,
            restart: given.restart?,
        },
        Verb::Exit => Event::Exit {
            node: given.node?,
            app: given.app?,
            normal: given.ending?,
        },
        Verb::StartAll => Event::StartAll {
            app: given.app?,
            restart: given.restart?,
        },
        Verb::StopAll => Event::StopAll { app: given.app? },
        _ => return None,
    })
}

/// The call that a command asks with what is given to it, where nothing is missing.
pub fn call_of(verb: Verb, given: Given) -> Option<Call>
    ensures { result ≡ call_of verb given }
{
    match verb {
        Verb::Undo => Some(Call::Undo),
        Verb::Redo => Some(Call::Redo),
        Verb::UndoAll => Some(Call::UndoAll),
        Verb::RedoAll => Some(Call::RedoAll),
        Verb::Show => Some(Call::Look),
        _ => Some(Call::Step(event_of(verb, given)?)),
    }
}

impl Given {
    /// The same with a node.
    pub fn with_node(self, node: Node) -> Given
        ensures { result ≡ with_node self node }
    {
        Given {
            node: Some(node),
            ..self
        }
    }

    /// The same with an application.
    pub fn with_app(self, app: App) -> Given
        ensures { result ≡ with_app self app }
    {
        Given {
            app: Some(app),
            ..self
        }
    }

    /// The same with a restart type.
    pub fn with_restart(self, restart: Restart) -> Given
        ensures { result ≡ with_restart self restart }
    {
        Given {
            restart: Some(restart),
            ..self
        }
    }

    /// The same with whether an application may run.
    pub fn with_truth(self, truth: bool) -> Given
        ensures { result ≡ with_truth self truth }
    {
        Given {
            truth: Some(truth),
            ..self
        }
    }

    /// The same with whether it ends for a normal reason.
    pub fn with_ending(self, ending: bool) -> Given
        ensures { result ≡ with_ending self ending }
    {
        Given {
            ending: Some(ending),
            ..self
        }
    }

    /// The same with a number of milliseconds.
    pub fn with_ms(self, ms: u64) -> Given
        ensures { result ≡ with_ms self ms }
    {
        Given {
            ms: Some(ms),
            ..self
        }
    }
}

// What is given for an application at a node.
fn at_place(node: Node, app: App) -> Given
    ensures { result ≡ at_place node app }
{
    NOTHING.with_node(node).with_app(app)
}

// The command of an event, and what is given to it.
fn said_event(event: Event) -> (Verb, Given)
    ensures { result ≡ said_event event }
{
    match event {
        Event::Boot { node } => (Verb::Boot, NOTHING.with_node(node)),
        Event::Crash { node } => (Verb::Crash, NOTHING.with_node(node)),
        Event::Tick { ms } => (Verb::Tick, NOTHING.with_ms(ms)),
        Event::Start { node, app, restart } => {
            (Verb::Start, at_place(node, app).with_restart(restart))
        }
        Event::Stop { node, app } => (Verb::Stop, at_place(node, app)),
        Event::Permit { node, app, allow } => {
            (Verb::Permit, at_place(node, app).with_truth(allow))
        }
        Event::Takeover { node, app, restart } => {
            (Verb::Takeover, at_place(node, app).with_restart(restart))
        }
        Event::Exit { node, app, normal } => {
            (Verb::Exit, at_place(node, app).with_ending(normal))
        }
        Event::StartAll { app, restart } => {
            (Verb::StartAll, NOTHING.with_app(app).with_restart(restart))
        }
        Event::StopAll { app } => (Verb::StopAll, NOTHING.with_app(app)),
    }
}

/// The command that asks a call, and what is given to it.
pub fn said(call: Call) -> (Verb, Given)
    ensures { result ≡ said call }
{
    match call {
        Call::Step(event) => said_event(event),
        Call::Undo => (Verb::Undo, NOTHING),
        Call::Redo => (Verb::Redo, NOTHING),
        Call::UndoAll => (Verb::UndoAll, NOTHING),
        Call::RedoAll => (Verb::RedoAll, NOTHING),
        Call::Look => (Verb::Show, NOTHING),
    }
}
