//! What a live node reads in its own configuration that other nodes may have written otherwise.

ghost use Rattle.std.specs.Prelude.{◌≡◌, ◌==◌, [], true, false};
ghost use Rattle.std.specs.List.{list_any};
ghost use Rattle.rh_otp_model.specs.Own.{controls};

use rh_model::{App, Node};
use std::alloc::Global;
use std::marker::Model;

/// A place of an application's list as it is written: a live node tells `{n}` from `n`.
#[derive(Drop)]
pub struct Written {
    is_tuple: bool,
    nodes: Vec<Node>,
}

/// Contracts see a place as its nodes, with whether they stand in a tuple.
impl Model for Written {
    ghost use Rattle.rh_otp_model.specs.Own.{WrittenView};

    ghost Value = { WrittenView };

    ghost view = { λ w. record { is_tuple = w.is_tuple; nodes = w.nodes.items } };
}

impl Written {
    /// These nodes, in a tuple or not.
    pub fn of(is_tuple: bool, nodes: Vec<Node>) -> Written
        ensures { result ≡ record { is_tuple = is_tuple; nodes = nodes.items } }
    {
        Written { is_tuple, nodes }
    }

    /// Does it stand in a tuple?
    pub fn is_tuple(&self) -> bool
        ensures { result ≡ self.now.is_tuple }
    {
        self.is_tuple
    }

    /// Its nodes, in the order in which they are written.
    pub fn nodes(&self) -> &[Node]
        ensures { result.now ≡ self.now.nodes }
    {
        self.nodes.as_slice()
    }
}

/// An application's entry in `distributed`, as the node has it (kernel(6)).
#[derive(Drop)]
pub struct Entry {
    app: App,
    timeout: u64,
    places: Vec<Written>,
}

/// Contracts see an entry as its parts.
impl Model for Entry {
    ghost use Rattle.rh_otp_model.specs.Own.{EntryView};

    ghost Value = { EntryView };

    ghost view = { λ e. record { app = e.app; timeout = e.timeout; places = e.places.items } };
}

impl Entry {
    /// The entry of this application; the timeout is in milliseconds.
    pub fn of(app: App, timeout: u64, places: Vec<Written>) -> Entry
        ensures { result ≡ record { app = app; timeout = timeout; places = places.items } }
    {
        Entry {
            app,
            timeout,
            places,
        }
    }

    /// The application.
    pub fn app(&self) -> App
        ensures { result ≡ self.now.app }
    {
        self.app
    }

    /// How long it stays lost, in milliseconds.
    pub fn timeout(&self) -> u64
        ensures { result ≡ self.now.timeout }
    {
        self.timeout
    }

    /// The places of its list.
    pub fn places(&self) -> &[Written]
        ensures { result.now ≡ self.now.places }
    {
        self.places.as_slice()
    }
}

/// What a node's own file tells it.
#[derive(Drop)]
pub struct Own {
    has_dist: bool,
    entries: Vec<Entry>,
}

/// Contracts see it as its parts.
impl Model for Own {
    ghost use Rattle.rh_otp_model.specs.Own.{OwnView};

    ghost Value = { OwnView };

    ghost view = { λ o. record { has_dist = o.has_dist; entries = o.entries.items } };
}

impl Own {
    /// A node whose `distributed` has these entries.
    pub fn of(entries: Vec<Entry>) -> Own
        ensures { result ≡ record { has_dist = true; entries = entries.items } }
    {
        Own {
            has_dist: true,
            entries,
        }
    }

    /// A node without `distributed`.
    pub fn without(alloc: Global) -> Own
        ensures { result ≡ record { has_dist = false; entries = [] } }
    {
        Own {
            has_dist: false,
            entries: Vec::new(alloc),
        }
    }

    /// Has the node a dist_ac? It has one where its `distributed` is set.
    pub fn has_dist(&self) -> bool
        ensures { result ≡ self.now.has_dist }
    {
        self.has_dist
    }

    /// The entries of its `distributed`, in their order.
    pub fn entries(&self) -> &[Entry]
        ensures { result.now ≡ self.now.entries }
    {
        self.entries.as_slice()
    }

    /// Does the node's dist_ac control the application?
    pub fn controls(&self, app: App) -> bool
        ensures { result ≡ controls self.now app }
    {
        self.has_dist && has_entry(self.entries.as_slice(), app)
    }
}

// Is there an entry of the application?
fn has_entry(entries: &[Entry], app: App) -> bool
    ensures { result ≡ list_any (λ e. e.app.0 == app.0) entries.now }
{
    for entry in entries {
        if entry.app().0 == app.0 {
            return true;
        }
    }
    false
}
