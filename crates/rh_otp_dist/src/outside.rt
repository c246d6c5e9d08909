//! What the system around a dist_ac reads of it, and does to it.

ghost use Rattle.std.specs.Prelude.{◌≡◌, ◌∷◌, [], IfOk, OnOk, length};
ghost use Rattle.std.specs.List.{list_any};
ghost use Rattle.rh_otp_dist.specs.State.{standing_of, may_run};
ghost use Rattle.rh_otp_dist.specs.Told.{is_local};
ghost use Rattle.rh_otp_dist.specs.Waiting.{introduce};
ghost use Rattle.rh_otp_dist.specs.Received.{next_mail};
ghost use Rattle.rh_otp_dist.specs.Outside.{with_message, at_lock, with_monitor, without_monitors, monitors, unparked, answers, answer_to, introduced_back, idle_need, go_need, need_at, need_of, introduction, introduced_to};

use crate::nodes::drop_node;
use crate::reading::may_run;
use crate::state::{Appl, Dist, PermitWait, Stand, Standing};
use crate::told::{goes_on, is_local};
use crate::turn::Turn;
use rh_base::{Duplicate, OutOfMemory};
use rh_model::{App, Group, Node};
use rh_otp_model::{Flags, Message, Process};
use std::alloc::Global;

/// What a message asks of the system before it is handled.
#[derive(Clone, Copy, Debug, PartialEq, Eq)]
pub enum Need {
    /// Nothing.
    Nothing,
    /// The lock of its own node: a start request asks for it once.
    OwnLock,
    /// This node is answered: for a weight of this application, or for an introduction. It may answer back without end.
    Answer(Node, Option<App>),
    /// The lock of all nodes that synchronise: its node's wait is over.
    Lock,
}

// What a message asks for where it waits until kernel has seen the other nodes.
fn go_need(message: &Message) -> Need
    ensures { result ≡ go_need message.now }
{
    match message {
        Message::Go => Need::Lock,
        _ => Need::Nothing,
    }
}

// The list of one node.
fn only(alloc: Global, node: Node) -> Result<Vec<Node>, OutOfMemory>
    ensures { IfOk result (λ nodes. nodes.items ≡ node ∷ []) }
{
    Ok(Vec::from_slice(alloc, &[node])?)
}

// Does one of these run here?
fn has_local(appls: &[Appl]) -> bool
    ensures { result ≡ list_any (λ appl. is_local appl.standing) appls.now }
{
    appls.iter().any(|appl| is_local(appl.standing))
}

impl PermitWait {
    /// Who waits.
    pub fn caller(&self) -> Process
        ensures { result ≡ self.now.caller }
    {
        self.caller
    }

    /// The nodes of which one is to start the application.
    pub fn nodes(&self) -> &[Node]
        ensures { result.now ≡ self.now.nodes }
    {
        self.nodes.as_slice()
    }
}

/// What it shows.
impl Dist {
    /// Where it stands.
    pub fn stand(&self) -> &Stand
        ensures { result.now ≡ self.now.stand }
    {
        &self.stand
    }

    /// Have all nodes introduced themselves that it saw when its node's wait was over?
    pub fn is_synchronised(&self) -> bool
        ensures { result ≡ self.now.is_synchronised }
    {
        self.is_synchronised
    }

    /// The nodes that it knows, what is new in front.
    pub fn known(&self) -> &[Node]
        ensures { result.now ≡ self.now.known }
    {
        self.known.as_slice()
    }

    /// The nodes of whose end it is told beside all those that are connected, once for each monitor.
    pub fn monitored(&self) -> &[Node]
        ensures { result.now ≡ self.now.monitored }
    {
        self.monitored.as_slice()
    }

    /// The applications whose start requests found the lock of its node held.
    pub fn parked(&self) -> &[App]
        ensures { result.now ≡ self.now.parked }
    {
        self.parked.as_slice()
    }

    /// Who waits in permit/6 for another node to start an application.
    pub fn p_reqs(&self) -> &[(App, PermitWait)]
        ensures { result.now ≡ self.now.p_reqs }
    {
        self.p_reqs.as_slice()
    }

    /// How an application stands.
    pub fn standing(&self, app: App) -> Standing
        ensures { result ≡ standing_of self.now app }
    {
        match self.appls.get(app.0 as usize) {
            Some(appl) => appl.standing,
            None => Standing::Undefined,
        }
    }

    /// May the node run the application, as far as it is known here?
    pub fn may_run(&self, node: Node, app: App) -> bool
        ensures { result ≡ may_run self.now node app }
    {
        may_run(self, node, app)
    }

    /// How often a node stands in [`Dist::monitored`].
    pub fn monitors(&self, node: Node) -> usize
        ensures { result ≡ monitors node self.now }
    {
        self.monitored
            .iter()
            .filter(|other| other.0 == node.0)
            .count()
    }

    /// How many messages it hasn't handled yet.
    pub fn mail_count(&self) -> usize
        ensures { result ≡ length self.now.mail }
    {
        self.mail.len()
    }

    /// The place in its mailbox of the first message that it takes where it stands.
    pub fn next_mail(&self) -> Option<usize>
        ensures { result ≡ next_mail self.now }
    {
        let stand = &self.stand;
        self.mail.iter().position(|message| stand.takes(message))
    }
}

/// What is done to it.
impl Dist {
    /// A message comes into its mailbox.
    pub fn receive(&mut self, message: Message) -> Result<(), OutOfMemory>
        ensures { OnOk result (self.new ≡ with_message message self.old) }
    {
        self.mail.push(message)?;
        Ok(())
    }

    /// sync_dacs/1: it waits for the lock of all these nodes.
    pub fn wait_for_lock(&mut self, nodes: Group)
        ensures { self.new ≡ at_lock nodes self.old }
    {
        self.stand = Stand::ForLock(nodes);
    }

    /// monitor_node/2: it is told of the node's end, once more than before.
    pub fn monitor(&mut self, node: Node) -> Result<(), OutOfMemory>
        ensures { OnOk result (self.new ≡ with_monitor node self.old) }
    {
        self.monitored.push(node)?;
        Ok(())
    }

    /// It is told of the node's end no more.
    pub fn end_monitors(&mut self, node: Node)
        ensures { self.new ≡ without_monitors node self.old }
    {
        drop_node(&mut self.monitored, node);
    }

    /// The first start request that found the lock of its node held is sent again, where there is one.
    pub fn unpark(&mut self) -> Result<(), OutOfMemory>
        ensures { OnOk result (self.new ≡ unparked self.old) }
    {
        if self.parked.is_empty() {
            return Ok(());
        }
        let app = self.parked.remove(0);
        self.receive(Message::StartRequest(app))
    }
}

/// What its messages ask for.
impl Dist {
    // Does no application run here?
    fn is_idle(&self) -> bool
        ensures { result ≡ answers None self.now }
    {
        !has_local(self.appls.as_slice())
    }

    /// Does it answer a weight of the application, which it doesn't wait for? Of none: does it answer introductions without end?
    pub fn goes_on(&self, app: Option<App>) -> bool
        ensures { result ≡ answers app self.now }
    {
        match app {
            Some(app) => goes_on(self.standing(app)),
            None => self.is_idle(),
        }
    }

    // Who is answered, if it answers.
    fn answer_to(&self, node: Node, app: Option<App>) -> Need
        ensures { result ≡ answer_to node app self.now }
    {
        if self.goes_on(app) {
            Need::Answer(node, app)
        } else {
            Need::Nothing
        }
    }

    // Of an introduction, unless it is an answer itself.
    fn introduced_back(&self, node: Node, is_answer: bool) -> Need
        ensures { result ≡ introduced_back node is_answer self.now }
    {
        if is_answer {
            return Need::Nothing;
        }
        self.answer_to(node, None)
    }

    // What a message asks for where it waits for any.
    fn idle_need(&self, message: &Message) -> Need
        ensures { result ≡ idle_need message.now self.now }
    {
        match message {
            Message::StartRequest(_) => Need::OwnLock,
            Message::Weight(app, _, node) => self.answer_to(*node, Some(*app)),
            Message::NewNode(node, _, started) => self.introduced_back(*node, started.has_any()),
            _ => Need::Nothing,
        }
    }

    // What a message asks for where it stands.
    fn need_at(&self, message: &Message) -> Need
        ensures { result ≡ need_at self.now.stand message.now self.now }
    {
        match &self.stand {
            Stand::Idle => self.idle_need(message),
            Stand::ForGo => go_need(message),
            _ => Need::Nothing,
        }
    }

    /// What the message at this place of its mailbox asks of the system before it is handled.
    pub fn need(&self, place: usize) -> Need
        ensures { result ≡ need_of place self.now }
    {
        match self.mail.get(place) {
            Some(message) => self.need_at(message),
            None => Need::Nothing,
        }
    }
}

impl<'a> Turn<'a> {
    // What it tells of itself.
    fn introduction(&self) -> Result<Message, OutOfMemory>
        ensures { IfOk result (λ message. message ≡ introduction self.now) }
    {
        let here = self.here.node;
        let own = self.flags_at(here)?;
        let none = Flags::none(self.alloc, self.state.appls.len())?;
        Ok(Message::NewNode(here, own, none))
    }

    // It introduces itself to each of these nodes.
    fn introduce_each(&mut self, nodes: &[Node], message: &Message) -> Result<(), OutOfMemory>
        ensures { OnOk result (self.new ≡ introduce nodes.now message.now self.old) }
    {
        for node in nodes {
            let copy = message.copy(self.alloc)?;
            self.send_to(*node, copy)?;
        }
        Ok(())
    }

    /// introduce_me/2: it introduces itself to these nodes, which it sees and which have a dist_ac, and waits for each.
    #[tactic(auto, unfolding(crate::specs::Outside::introduced_to))]
    pub fn introduce(&mut self, nodes: &[Node]) -> Result<(), OutOfMemory>
        ensures { OnOk result (self.new ≡ introduced_to nodes.now self.old) }
    {
        let known = only(self.alloc, self.here.node)?;
        let message = self.introduction()?;
        self.introduce_each(nodes, &message)?;
        let nodes = Vec::from_slice(self.alloc, nodes)?;
        let remote_started = Vec::new(self.alloc);
        self.wait_dacs(nodes, known, remote_started)
    }
}
