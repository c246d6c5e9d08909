//! How a dist_ac goes on where it stood in the middle of something.

ghost use Rattle.std.specs.Prelude.{◌≡◌, ◌++◌, [], OnOk};
ghost use Rattle.rh_otp_dist.specs.Sending.{send_to, monitor};
ghost use Rattle.rh_otp_dist.specs.Choosing.{cached_weight, wait};
ghost use Rattle.rh_otp_dist.specs.Waiting.{is_introduction, is_weight, is_start_at, is_any_start, takes, wait_dacs, rows_at, merge, introduced_by, weighed_by, if_asked, fail_elsewhere, without_told_by, started_anywhere, started_there};

use crate::attempt::{AskedBy, Attempt};
use crate::nodes::drop_node;
use crate::state::{Introducing, Stand, Told, Weighing};
use crate::turn::Turn;
use rh_base::OutOfMemory;
use rh_model::{App, Dep, Node};
use rh_otp_model::{Fault, Flags, Message, Reply, Requester};

// Is it what the first of these nodes tells of itself, or that it is down?
fn is_introduction(nodes: &[Node], message: &Message) -> bool
    ensures { result ≡ is_introduction nodes.now message.now }
{
    let Some(node) = nodes.first() else {
        return false;
    };
    match message {
        Message::NewNode(other, _, _) => other.0 == node.0,
        Message::NodeDown(other) => other.0 == node.0,
        _ => false,
    }
}

// Is it the weight that the first of these nodes tells, or that it is down?
fn is_weight(app: App, nodes: &[Node], message: &Message) -> bool
    ensures { result ≡ is_weight app nodes.now message.now }
{
    let Some(node) = nodes.first() else {
        return false;
    };
    match message {
        Message::Weight(other, _, from) => other.0 == app.0 && from.0 == node.0,
        Message::NodeDown(from) => from.0 == node.0,
        _ => false,
    }
}

// Does it tell of the start at this node, or that the node is down?
fn is_start_at(app: App, node: Node, message: &Message) -> bool
    ensures { result ≡ is_start_at app node message.now }
{
    match message {
        Message::AppStarted(from, other, _) => other.0 == app.0 && from.0 == node.0,
        Message::Weight(other, _, from) => other.0 == app.0 && from.0 == node.0,
        Message::NodeDown(from) => from.0 == node.0,
        _ => false,
    }
}

// Does it tell of a start of the application, or that some node is down?
fn is_any_start(app: App, message: &Message) -> bool
    ensures { result ≡ is_any_start app message.now }
{
    match message {
        Message::AppStarted(_, other, _) => other.0 == app.0,
        Message::NodeDown(_) => true,
        _ => false,
    }
}

impl Stand {
    /// Does it take a message where it stands? All else stays in its mailbox.
    pub fn takes(&self, message: &Message) -> bool
        ensures { result ≡ takes self.now message.now }
    {
        match self {
            Stand::Idle => true,
            Stand::ForGo => matches!(message, Message::Go),
            Stand::ForLock(_) => false,
            Stand::ForIntroduction(stand) => is_introduction(stand.nodes(), message),
            Stand::ForWeight(stand) => is_weight(stand.app(), stand.nodes(), message),
            Stand::ForStart(attempt, node) => is_start_at(attempt.app(), *node, message),
            Stand::ForAnyStart(attempt) => is_any_start(attempt.app(), message),
        }
    }
}

// Adds the applications that are set, each with the node.
fn add_rows(rows: &mut Vec<(App, Node)>, node: Node, flags: &Flags) -> Result<(), OutOfMemory>
    ensures { OnOk result (rows.new.items ≡ rows.old.items ++ rows_at node 0 flags.now) }
{
    let flags = flags.as_slice();
    for (number, set) in flags.iter().enumerate() {
        if *set {
            rows.push((App(number as u8), node))?;
        }
    }
    Ok(())
}

// Without the weight that a node has told of the application.
fn drop_told_by(told: &mut Vec<Told>, app: App, node: Node)
    ensures { told.new.items ≡ without_told_by app node told.old.items }
{
    told.retain(|one| !(one.app.0 == app.0 && one.node.0 == node.0));
}

impl<'a> Turn<'a> {
    // What it learns when all have introduced themselves.
    fn synchronise(&mut self, known: Vec<Node>, remote: Vec<(App, Node)>) -> Result<(), OutOfMemory>
        ensures { OnOk result (self.new ≡ wait_dacs [] known.items remote.items self.old) }
    {
        self.state.stand = Stand::Idle;
        self.state.is_synchronised = true;
        self.state.known = known;
        self.state.remote_started = remote;
        let me = self.me();
        self.free_lock(Requester::Sync, me)
    }

    // wait_dacs/4
    pub(crate) fn wait_dacs(
        &mut self,
        nodes: Vec<Node>,
        known: Vec<Node>,
        remote_started: Vec<(App, Node)>,
    ) -> Result<(), OutOfMemory>
        ensures { OnOk result
            (self.new ≡ wait_dacs nodes.items known.items remote_started.items self.old) }
    {
        let Some(first) = nodes.first() else {
            return self.synchronise(known, remote_started);
        };
        let first = *first;
        self.monitor(first)?;
        self.wait(Stand::ForIntroduction(Introducing {
            nodes,
            known,
            remote_started,
        }));
        Ok(())
    }

    // dist_merge/3
    pub(crate) fn merge(&mut self, node: Node, allowed: Flags)
        ensures { self.new ≡ merge node allowed self.old }
    {
        if (node.0 as usize) < self.state.may.len() {
            self.state.may[node.0 as usize] = allowed;
        }
    }

    // A node has told what it knows, or is down.
    pub(crate) fn introduced(
        &mut self,
        stand: Introducing,
        message: Message,
    ) -> Result<(), OutOfMemory>
        ensures { OnOk result (self.new ≡ introduced_by stand stand.nodes message self.old) }
    {
        let Introducing {
            mut nodes,
            mut known,
            mut remote_started,
        } = stand;
        if nodes.is_empty() {
            return self.wait_dacs(nodes, known, remote_started);
        }
        let node = nodes.remove(0);
        self.demonitor(node);
        match message {
            Message::NewNode(from, allowed, started) => {
                self.merge(from, allowed);
                known.insert(0, node)?;
                add_rows(&mut remote_started, from, &started)?;
                self.wait_dacs(nodes, known, remote_started)
            }
            _ => self.wait_dacs(nodes, known, remote_started),
        }
    }

    // collect_answers/4: a node has told its weight, or is down.
    pub(crate) fn weighed(&mut self, stand: Weighing, message: Message) -> Result<(), OutOfMemory>
        ensures { OnOk result (self.new ≡ weighed_by stand stand.nodes message self.old) }
    {
        let mut stand = stand;
        if stand.nodes.is_empty() {
            return self.weigh(stand);
        }
        let node = stand.nodes.remove(0);
        self.demonitor(node);
        if let Message::Weight(_, weight, _) = message {
            stand.answers.push((weight, node))?;
        }
        self.weigh(stand)
    }

    // ac_error/3
    fn if_asked(&mut self, attempt: &Attempt, node: Node, dep: Dep) -> Result<(), OutOfMemory>
        ensures { OnOk result
            (self.new ≡ if_asked attempt.now.asked_by attempt.now.app node dep self.old) }
    {
        match attempt.asked_by() {
            AskedBy::Controller => {
                let what = Reply::Error(Fault::FailedAt(node, dep));
                self.to_controller(Message::Reply(attempt.app(), what))
            }
            AskedBy::Nobody => Ok(()),
        }
    }

    // The start has failed at another node.
    fn fail_elsewhere(&mut self, attempt: Attempt, node: Node, dep: Dep) -> Result<(), OutOfMemory>
        ensures { OnOk result (self.new ≡ fail_elsewhere attempt node dep self.old) }
    {
        let standing = self.standing(attempt.app());
        self.if_asked(&attempt, node, dep)?;
        self.finish(attempt, standing, false)
    }

    // A node is down that could have started it.
    fn try_others(&mut self, attempt: Attempt, node: Node) -> Result<(), OutOfMemory>
        ensures { OnOk result
            (self.new ≡ started_anywhere attempt (Message.NodeDown node) self.old) }
    {
        let mut attempt = attempt;
        drop_told_by(&mut self.state.tmp_locals, attempt.app(), node);
        drop_node(&mut attempt.permitted, node);
        self.start_distributed(attempt)
    }

    // wait_dist_start2/6
    pub(crate) fn started_anywhere(
        &mut self,
        attempt: Attempt,
        message: Message,
    ) -> Result<(), OutOfMemory>
        ensures { OnOk result (self.new ≡ started_anywhere attempt message self.old) }
    {
        match message {
            Message::NodeDown(node) => self.try_others(attempt, node),
            Message::AppStarted(node, _, None) => self.runs_elsewhere(attempt, node),
            Message::AppStarted(node, _, Some(dep)) => self.fail_elsewhere(attempt, node, dep),
            _ => {
                self.wait(Stand::ForAnyStart(attempt));
                Ok(())
            }
        }
    }

    // wait_dist_start/7, where a weight came: it is answered, and the wait goes on.
    fn answer_weight_again(&mut self, attempt: Attempt, node: Node) -> Result<(), OutOfMemory>
        ensures { let weight = cached_weight self.old attempt.app in
            let told = Message.Weight attempt.app weight self.old.here.node in
            OnOk result (self.new
            ≡ wait (Stand.ForStart attempt node) (monitor node (send_to node told self.old))) }
    {
        let weight = self.cached_weight(attempt.app());
        let here = self.here.node;
        self.send_to(node, Message::Weight(attempt.app(), weight, here))?;
        self.monitor(node)?;
        self.wait(Stand::ForStart(attempt, node));
        Ok(())
    }

    // wait_dist_start/7
    pub(crate) fn started_there(
        &mut self,
        attempt: Attempt,
        node: Node,
        message: Message,
    ) -> Result<(), OutOfMemory>
        ensures { OnOk result (self.new ≡ started_there attempt node message self.old) }
    {
        self.demonitor(node);
        match message {
            Message::Weight(_, _, _) => self.answer_weight_again(attempt, node),
            _ => self.started_anywhere(attempt, message),
        }
    }
}
