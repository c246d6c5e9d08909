//! What a dist_ac does when a node is down.

ghost use Rattle.std.specs.Prelude.{◌≡◌, [], true, IfOk, OnOk};
ghost use Rattle.rh_otp_dist.specs.State.{with_state, appl_of, with_losses};
ghost use Rattle.rh_otp_dist.specs.Down.{lose, lose_each, is_lost, lost_with, set_timer, time_each, stop_waiting, still_awaited, stop_row, keep_row, check_each, check_waiting, forget_node, unknow, node_down};

use crate::choosing::is_node;
use crate::nodes::{delete_node, drop_node, drop_rows_at};
use crate::reading::{may_run, runs_at};
use crate::state::{Appl, PermitWait, Standing};
use crate::turn::Turn;
use rh_base::OutOfMemory;
use rh_model::{App, Node};
use rh_otp_model::{Change, Entry, Flags, Message, Output, Process};
use std::alloc::Global;

// The nodes that one still waits for.
fn still_awaited(
    alloc: Global,
    is_even: bool,
    node: Node,
    nodes: &[Node],
) -> Result<Vec<Node>, OutOfMemory>
    ensures { IfOk result (λ left. left.items ≡ still_awaited is_even node nodes.now) }
{
    let mut left = Vec::from_slice(alloc, nodes)?;
    if is_even {
        drop_node(&mut left, node);
    }
    Ok(left)
}

impl<'a> Turn<'a> {
    // An application that ran at the node is lost.
    fn lose(&mut self, node: Node, app: App, standing: Standing) -> Result<(), OutOfMemory>
        ensures { OnOk result (self.new ≡ lose node app standing self.old) }
    {
        let Standing::Distributed(other) = standing else {
            return Ok(());
        };
        if other.0 != node.0 {
            return Ok(());
        }
        if may_run(&self.state, self.here.node, app) {
            self.set_standing(app, Standing::Failover(node));
            return Ok(());
        }
        self.to_controller(Message::Change(app, Change::NotRunning))?;
        self.set_standing(app, Standing::Undefined);
        Ok(())
    }

    // Each of these applications that ran at the node is lost.
    fn lose_each(&mut self, node: Node, entries: &[Entry]) -> Result<(), OutOfMemory>
        ensures { OnOk result (self.new ≡ lose_each node entries.now self.old) }
    {
        for entry in entries {
            let app = entry.app();
            let standing = self.standing(app);
            self.lose(node, app, standing)?;
        }
        Ok(())
    }

    // Is the application of an entry lost with the node, and may it run here?
    fn is_lost(&self, node: Node, app: App) -> bool
        ensures { result ≡ is_lost node self.now app }
    {
        is_node(node, runs_at(self.standing(app))) && may_run(&self.state, self.here.node, app)
    }

    // The applications that are lost with the node, each with how long it stays lost.
    fn lost_with(&self, node: Node) -> Result<Vec<(App, u64)>, OutOfMemory>
        ensures { IfOk result (λ rows. rows.items ≡ lost_with node self.now) }
    {
        let own = self.own;
        let mut rows = Vec::new(self.alloc);
        for entry in own.entries() {
            if self.is_lost(node, entry.app()) {
                rows.push((entry.app(), entry.timeout()))?;
            }
        }
        Ok(rows)
    }

    // An application, or one that nothing is known of.
    fn appl(&self, app: App) -> Appl
        ensures { result ≡ appl_of self.now.state app }
    {
        match self.state.appls.get(app.0 as usize) {
            Some(appl) => *appl,
            None => Appl {
                standing: Standing::Undefined,
                losses: 0,
            },
        }
    }

    // How often an application was lost.
    fn set_losses(&mut self, app: App, losses: u32)
        ensures { self.new ≡ with_state (with_losses app losses self.old.state) self.old }
    {
        if let Some(appl) = self.state.appls.get_mut(app.0 as usize) {
            appl.losses = losses;
        }
    }

    // A timer is set for a loss, with its number. The error says that there were more losses than can be counted, too.
    fn set_timer(&mut self, app: App, timeout: u64) -> Result<(), OutOfMemory>
        ensures { OnOk result (self.new ≡ set_timer app timeout self.old) }
    {
        let losses = self.appl(app).losses;
        if losses == u32::MAX {
            return Err(OutOfMemory);
        }
        self.set_losses(app, losses + 1);
        self.output(Output::After(timeout, Message::RestartAppl(app, losses + 1)))
    }

    // A timer for each of these.
    fn time_each(&mut self, rows: &[(App, u64)]) -> Result<(), OutOfMemory>
        ensures { OnOk result (self.new ≡ time_each rows.now self.old) }
    {
        for row in rows {
            self.set_timer(row.0, row.1)?;
        }
        Ok(())
    }

    // Who waited for the last of its nodes: the application is stopped.
    pub(crate) fn stop_waiting(&mut self, app: App, caller: Process) -> Result<(), OutOfMemory>
        ensures { OnOk result (self.new ≡ stop_waiting app caller self.old) }
    {
        self.to_controller(Message::Change(app, Change::StopIt))?;
        self.state.s_reqs.insert(0, (app, caller))?;
        Ok(())
    }

    // check_waiting/6, of one that waits: its application is stopped, or it is kept.
    fn check_row(
        &mut self,
        kept: &mut Vec<(App, PermitWait)>,
        node: Node,
        is_even: bool,
        row: &(App, PermitWait),
    ) -> Result<(), OutOfMemory>
        ensures stopped { OnOk result (self.new ≡ stop_row node is_even row.now self.old) }
        ensures kept { OnOk result (kept.new.items ≡ keep_row node is_even row.now kept.old.items) }
    {
        let caller = row.1.caller;
        let nodes = still_awaited(self.alloc, is_even, node, row.1.nodes.as_slice())?;
        if nodes.is_empty() {
            return self.stop_waiting(row.0, caller);
        }
        kept.insert(0, (row.0, PermitWait { caller, nodes }))?;
        Ok(())
    }

    // check_waiting/6, of these that wait.
    fn check_each(&mut self, node: Node, rows: &[(App, PermitWait)]) -> Result<(), OutOfMemory>
        ensures { OnOk result (self.new ≡ check_each node true [] rows.now self.old) }
    {
        let mut kept = Vec::new(self.alloc);
        let mut is_even = true;
        for row in rows {
            self.check_row(&mut kept, node, is_even, row)?;
            is_even = !is_even;
        }
        self.put_waits(kept);
        Ok(())
    }

    // check_waiting/6
    #[tactic(auto, using(crate::proofs::Down::checked_apart))]
    fn check_waiting(&mut self, node: Node) -> Result<(), OutOfMemory>
        ensures { OnOk result (self.new ≡ check_waiting node self.old) }
    {
        let rows = self.take_waits()?;
        self.check_each(node, rows.as_slice())
    }

    // What is known of a node that is down: nothing.
    fn forget_node(&mut self, node: Node) -> Result<(), OutOfMemory>
        ensures { OnOk result (self.new ≡ forget_node node self.old) }
    {
        let flags = self.flags_at(node)?;
        let none = Flags::none(self.alloc, flags.as_slice().len())?;
        self.merge(node, none);
        drop_rows_at(&mut self.state.remote_started, node);
        Ok(())
    }

    // The node is known no more.
    fn unknow(&mut self, node: Node)
        ensures { self.new ≡ unknow node self.old }
    {
        delete_node(&mut self.state.known, node);
    }

    // handle_info({nodedown, ..})
    #[tactic(auto, unfolding(crate::specs::Down::node_down))]
    pub(crate) fn node_down(&mut self, node: Node) -> Result<(), OutOfMemory>
        ensures { OnOk result (self.new ≡ node_down node self.old) }
    {
        let mut lost = self.lost_with(node)?;
        lost.reverse();
        let own = self.own;
        self.lose_each(node, own.entries())?;
        self.forget_node(node)?;
        self.check_waiting(node)?;
        self.unknow(node);
        self.time_each(lost.as_slice())
    }
}
