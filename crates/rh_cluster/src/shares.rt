//! The entries of `distributed`.

use rh_model::{App, Spread};
use std::marker::Model;

/// An entry of a node's `distributed`: an application, and where it may run.
#[derive(Drop)]
pub struct Share {
    /// The application.
    pub app: App,
    /// Where it may run.
    pub spread: Spread,
}

/// A node's `distributed`.
#[derive(Drop)]
pub struct Shares {
    shares: Vec<Share>,
}

/// Contracts see `Shares` as the list of its entries.
impl Model for Shares {
    ghost use Rattle.std.specs.Prelude.{List};
    ghost use Rattle.rh_cluster.specs.declared.shares.Share.{Share};

    ghost Value = { List Share };

    ghost view = { λ s. s.shares.items };
}

impl Shares {
    ghost use Rattle.std.specs.Prelude.{◌≡◌};

    /// The `distributed` with these entries.
    pub fn of(shares: Vec<Share>) -> Shares
        ensures { result ≡ shares.items }
    {
        Shares { shares }
    }

    /// The entries, in order.
    pub fn as_slice(&self) -> &[Share]
        ensures { result.now ≡ self.now }
    {
        self.shares.as_slice()
    }
}

/// The `distributed` of each node. Most files give their nodes the same one, which is kept once.
#[derive(Drop)]
pub struct AllShares {
    // What several nodes may have.
    common: Shares,
    // What each node has, if it isn't that.
    own: Vec<Option<Shares>>,
}

/// Contracts see `AllShares` as a list of entries for each node.
impl Model for AllShares {
    ghost use Rattle.std.specs.Prelude.{List, map, unwrap_or};
    ghost use Rattle.rh_cluster.specs.declared.shares.Share.{Share};

    ghost Value = { List (List Share) };

    ghost view = { λ a. map (λ o. unwrap_or o a.common) a.own.items };
}

impl AllShares {
    ghost use Rattle.std.specs.Prelude.{◌≡◌, map, unwrap_or, length, IsTrue};
    ghost use Rattle.rh_cluster.specs.Agreement.{shares_at};

    /// Those of nodes of which each has these of its own, or else the common ones.
    pub fn of(common: Shares, own: Vec<Option<Shares>>) -> AllShares
        ensures { result ≡ map (λ o. unwrap_or o common) own.items }
    {
        AllShares { common, own }
    }

    /// The number of nodes.
    pub fn len(&self) -> usize
        ensures { result ≡ length self.now }
    {
        self.own.len()
    }

    /// Those of a node; a number that no node has has none.
    pub fn at(&self, node: usize) -> &[Share]
        ensures { result.now ≡ shares_at self.now node }
    {
        match self.own.get(node) {
            Some(Some(own)) => own.as_slice(),
            Some(None) => self.common.as_slice(),
            None => &[],
        }
    }

    /// Is it known, without a look at their entries, that two nodes have the same ones?
    pub fn are_alike(&self, this: usize, that: usize) -> bool
        ensures { IsTrue result → shares_at self.now this ≡ shares_at self.now that }
    {
        match (self.own.get(this), self.own.get(that)) {
            (Some(None), Some(None)) => true,
            _ => false,
        }
    }
}
