//! A turn of a dist_ac.

ghost use Rattle.std.specs.Prelude.{◌≡◌, []};

use crate::state::Dist;
use rh_model::Cluster;
use rh_otp_model::{Here, Output, Own};
use std::alloc::Global;
use std::marker::Model;

/// What a dist_ac asks of others, and is told at once.
#[derive(Clone, Copy, Debug, PartialEq, Eq)]
pub struct Asked {
    /// How many applications run at its node, those of the platform among them.
    pub weight: u32,
    /// Whether it has the lock of its own node.
    pub has_lock: bool,
    /// Whether two nodes answer one another without end, so that it doesn't answer any more.
    pub burns: bool,
}

/// A dist_ac at work: what it knows of its node, what it asks of others and is told at once, its state, and what it has done so far.
#[derive(Drop)]
pub struct Turn<'a> {
    pub(crate) alloc: Global,
    pub(crate) cluster: &'a Cluster,
    pub(crate) own: &'a Own,
    pub(crate) here: Here,
    // How many applications run at its node, those of the platform among them.
    pub(crate) weight: u32,
    // Whether it has the lock of its own node.
    pub(crate) has_lock: bool,
    // Whether two nodes answer one another without end, so that it doesn't answer any more.
    pub(crate) burns: bool,
    pub(crate) state: Dist,
    pub(crate) out: Vec<Output>,
}

/// Contracts see a `Turn` as its parts.
impl<'a> Model for Turn<'a> {
    ghost use Rattle.rh_otp_dist.specs.State.{TurnView};

    ghost Value = { TurnView };

    ghost view = { λ t. record {
      cluster = t.cluster.now;
      own = t.own.now;
      here = t.here;
      weight = t.weight;
      has_lock = t.has_lock;
      burns = t.burns;
      state = t.state;
      out = t.out.items;
    } };
}

impl<'a> Turn<'a> {
    /// A turn in which nothing is done so far.
    pub fn new(
        alloc: Global,
        cluster: &'a Cluster,
        own: &'a Own,
        here: Here,
        asked: Asked,
        state: Dist,
    ) -> Turn<'a>
        ensures { result ≡ record {
          cluster = cluster.now;
          own = own.now;
          here = here;
          weight = asked.weight;
          has_lock = asked.has_lock;
          burns = asked.burns;
          state = state;
          out = [];
        } }
    {
        let Asked {
            weight,
            has_lock,
            burns,
        } = asked;
        Turn {
            alloc,
            cluster,
            own,
            here,
            weight,
            has_lock,
            burns,
            state,
            out: Vec::new(alloc),
        }
    }

    /// Its state, and what it has done.
    pub fn into_parts(self) -> (Dist, Vec<Output>)
        ensures state { result.0 ≡ self.entry.state }
        ensures out { result.1.items ≡ self.entry.out }
    {
        let Turn {
            alloc: _,
            cluster: _,
            own: _,
            here: _,
            weight: _,
            has_lock: _,
            burns: _,
            state,
            out,
        } = self;
        (state, out)
    }
}
