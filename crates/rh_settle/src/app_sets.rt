//! A set of nodes for each application.

ghost use Rattle.std.specs.Prelude.{◌≡◌, ◌<◌, ◌&&◌, false, if◌then◌else◌};
ghost use Rattle.rh_model.specs.declared.limits.TheConstants.{MAX_APPS};
ghost use Rattle.rh_model.specs.declared.node.App.{App};
ghost use Rattle.rh_model.specs.declared.node.Node.{Node};
ghost use Rattle.rh_state.specs.Numbers.{same_app, same_node};
ghost use Rattle.rh_place.specs.declared.node_set.TheConstants.NodeSet.{LIMIT};
ghost use Rattle.rh_place.specs.Sets.{has};
ghost use Rattle.rh_settle.specs.Boards.{is_among};

use rh_model::{App, MAX_APPS, Node};
use rh_place::NodeSet;
use std::marker::Model;

/// For each application, by its number, a set of nodes.
#[derive(Drop)]
pub(crate) struct AppSets {
    sets: [NodeSet; MAX_APPS],
}

impl Model for AppSets {
    ghost use Rattle.std.specs.Prelude.{◌≡◌, length};
    ghost use Rattle.rh_model.specs.declared.limits.TheConstants.{MAX_APPS};
    ghost use Rattle.rh_settle.specs.Boards.{AppSets};

    ghost Value = { AppSets };

    ghost view = { λ t. record { sets = t.sets } };

    ghost invariant = { λ t. length t.sets ≡ MAX_APPS };
}

impl AppSets {
    // No node is in any set.
    pub fn empty() -> AppSets
        ensures { (a : App) (n : Node) → is_among result a n ≡ false }
    {
        AppSets {
            sets: [NodeSet::empty(); MAX_APPS],
        }
    }

    // The set of an application.
    pub fn of(&self, app: App) -> NodeSet
        requires { app.0 < MAX_APPS }
        ensures { (n : Node) → has result n ≡ is_among self.now app n }
    {
        self.sets[app.0 as usize]
    }

    // An application has this set from now on.
    pub fn set(&mut self, app: App, set: NodeSet)
        requires { app.0 < MAX_APPS }
        ensures { (a : App) (n : Node) → is_among self.new a n
            ≡ (if same_app a app then has set n else is_among self.old a n) }
    {
        self.sets[app.0 as usize] = set;
    }

    // A node is in the set of an application from now on, or isn't.
    pub fn put(&mut self, app: App, node: Node, member: bool)
        requires app { app.0 < MAX_APPS }
        requires node { node.0 < LIMIT }
        ensures { (a : App) (n : Node) → is_among self.new a n
            ≡ (if same_app a app && same_node n node then member else is_among self.old a n) }
    {
        let set = self.of(app).put(node, member);
        self.set(app, set);
    }
}
