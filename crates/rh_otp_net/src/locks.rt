//! `global`'s locks of the one resource `dist_ac`.

ghost use Rattle.std.specs.Prelude.{◌≡◌, IfOk, OnOk};
ghost use Rattle.rh_otp_net.specs.Locks.{is_others};

use crate::alike::{is_process, is_requester};
use rh_base::{Duplicate, OutOfMemory};
use rh_model::{Node, is_in};
use rh_otp_model::{Process, Requester};
use std::alloc::Global;
use std::marker::Model;

/// The lock at a node, which a process has by a name.
#[derive(Clone, Copy, Debug, PartialEq, Eq)]
pub struct Held {
    pub node: Node,
    pub requester: Requester,
    pub owner: Process,
}

/// Who has the lock at which nodes, in the order in which it was taken.
#[derive(Drop)]
pub struct Locks {
    rows: Vec<Held>,
}

/// Contracts see `Locks` as their list.
impl Model for Locks {
    ghost use Rattle.std.specs.Prelude.{List};
    ghost use Rattle.rh_otp_net.specs.declared.locks.Held.{Held};

    ghost Value = { List Held };

    ghost view = { λ l. l.rows.items };
}

// Is it held at one of these nodes by another name?
fn is_others(requester: Requester, nodes: &[Node], row: &Held) -> bool
    ensures { result ≡ is_others requester nodes.now row.now }
{
    is_in(row.node, nodes) && !is_requester(row.requester, requester)
}

impl Locks {
    ghost use Rattle.std.specs.Prelude.{[], ◌++◌};
    ghost use Rattle.std.specs.List.{list_any};
    ghost use Rattle.rh_otp_net.specs.Locks.{is_free, held_at, taken, freed, without_node};

    /// Nobody has the lock anywhere.
    pub fn new(alloc: Global) -> Locks
        ensures { result ≡ [] }
    {
        Locks {
            rows: Vec::new(alloc),
        }
    }

    /// As a list.
    pub fn as_slice(&self) -> &[Held]
        ensures { result.now ≡ self.now }
    {
        self.rows.as_slice()
    }

    // Does somebody have it at one of these nodes by another name?
    fn is_held(&self, requester: Requester, nodes: &[Node]) -> bool
        ensures { result ≡ list_any (is_others requester nodes.now) self.now }
    {
        self.as_slice()
            .iter()
            .any(|row| is_others(requester, nodes, row))
    }

    /// Does nobody have it at these nodes by another name?
    pub fn is_free(&self, requester: Requester, nodes: &[Node]) -> bool
        ensures { result ≡ is_free requester nodes.now self.now }
    {
        !self.is_held(requester, nodes)
    }

    // The process has it at these nodes, too.
    fn put(
        &mut self,
        requester: Requester,
        owner: Process,
        nodes: &[Node],
    ) -> Result<(), OutOfMemory>
        ensures { OnOk result (self.new ≡ self.old ++ held_at requester owner nodes.now) }
    {
        for node in nodes {
            self.rows.push(Held {
                node: *node,
                requester,
                owner,
            })?;
        }
        Ok(())
    }

    /// set_lock/3: at all of these nodes, or at none. Does the process have it now?
    pub fn take(
        &mut self,
        requester: Requester,
        owner: Process,
        nodes: &[Node],
    ) -> Result<bool, OutOfMemory>
        ensures has { IfOk result (λ has. has ≡ is_free requester nodes.now self.old) }
        ensures taken { OnOk result (self.new ≡ taken requester owner nodes.now self.old) }
    {
        let is_free = self.is_free(requester, nodes);
        if is_free {
            self.put(requester, owner, nodes)?;
        }
        Ok(is_free)
    }

    /// del_lock/2: the process has it by this name at no node.
    pub fn free(&mut self, requester: Requester, owner: Process)
        ensures { self.new ≡ freed requester owner self.old }
    {
        self.rows.retain(|row| {
            !(is_requester(row.requester, requester) && is_process(row.owner, owner))
        });
    }

    /// A node has ended, with its own lock and with those that its processes have at others.
    pub fn forget_node(&mut self, node: Node)
        ensures { self.new ≡ without_node node self.old }
    {
        self.rows
            .retain(|row| row.node.0 != node.0 && row.owner.node.0 != node.0);
    }
}

impl Duplicate for Locks {
    fn copy(&self, alloc: Global) -> Result<Locks, OutOfMemory>
        ensures { IfOk result (λ copy. copy ≡ self.now) }
    {
        Ok(Locks {
            rows: Vec::from_slice(alloc, self.rows.as_slice())?,
        })
    }
}
