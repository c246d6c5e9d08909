//! Which nodes and applications a step touches.

ghost use Rattle.std.specs.Prelude.{◌≡◌, ◌++◌, ◌∷◌, [], OnOk, IfOk, if◌then◌else◌};
ghost use Rattle.std.specs.List.{flat_map};
ghost use Rattle.rh_step_findings.specs.After.{comes_up};
ghost use Rattle.rh_step_findings.specs.Touched.{names, names_app, is_touched, touch_of, touched_with, touched_at, all_touched, moves, mover, all_movers};

use crate::step::Step;
use rh_base::OutOfMemory;
use rh_model::{App, Node};
use rh_rules::Event;
use rh_step_findings::Touch;
use std::alloc::Global;

// Does the event name an application?
fn names_app(event: Event, app: App) -> bool
    ensures { result ≡ names_app event app }
{
    match event {
        Event::Start { app: one, .. } => one.0 == app.0,
        Event::Stop { app: one, .. } => one.0 == app.0,
        Event::Permit { app: one, .. } => one.0 == app.0,
        Event::Takeover { app: one, .. } => one.0 == app.0,
        Event::Exit { app: one, .. } => one.0 == app.0,
        Event::StartAll { app: one, .. } => one.0 == app.0,
        _ => false,
    }
}

// Does it name a node with it, and not start it?
fn names(event: Event, node: Node, app: App) -> bool
    ensures { result ≡ names event node app }
{
    match event {
        Event::Stop { node: at, app: one } => at.0 == node.0 && one.0 == app.0,
        Event::Permit {
            node: at,
            app: one,
            ..
        } => at.0 == node.0 && one.0 == app.0,
        Event::Takeover {
            node: at,
            app: one,
            ..
        } => at.0 == node.0 && one.0 == app.0,
        Event::Exit {
            node: at,
            app: one,
            ..
        } => at.0 == node.0 && one.0 == app.0,
        _ => false,
    }
}

// Adds an application, if it moves.
fn push_app_if(apps: &mut Vec<App>, holds: bool, app: App) -> Result<(), OutOfMemory>
    ensures { OnOk result (apps.new.items ≡ apps.old.items ++ (if holds then app ∷ [] else [])) }
{
    if holds {
        apps.push(app)?;
    }
    Ok(())
}

impl<'a> Step<'a> {
    // Does the step touch them? Whether the node comes up is known.
    #[tactic(auto, unfolding(rh_step_findings::specs::Touched::is_touched, rh_step_findings::specs::After::starts_now))]
    fn is_touched(&self, rises: bool, node: Node, app: App) -> bool
        requires { rises ≡ comes_up self.now.state self.now.event node }
        ensures { result ≡ is_touched self.now.state self.now.event node app }
    {
        names(self.event, node, app)
            || self.is_started_by(node, app)
            || rises && self.boots(node, app)
            || self.is_called(node, app)
    }

    // May it touch the application where the node doesn't come up?
    #[tactic(auto, unfolding(rh_step_findings::specs::Touched::moves))]
    fn moves(&self, app: App) -> bool
        ensures { result ≡ moves self.now.state self.now.event app }
    {
        names_app(self.event, app) || self.fails_over(app)
    }

    // The applications of which that is so.
    #[tactic(auto, unfolding(rh_step_findings::specs::Touched::all_movers))]
    fn movers(&self, alloc: Global) -> Result<Vec<App>, OutOfMemory>
        ensures { IfOk result (λ movers. movers.items ≡ all_movers self.now.state self.now.event) }
    {
        let mut movers = Vec::new(alloc);
        let apps = self.apps.as_slice();
        for app in apps {
            push_app_if(&mut movers, self.moves(*app), *app)?;
        }
        Ok(movers)
    }

    // Those that are touched, with what the kinds ask of them first.
    #[tactic(auto, unfolding(rh_step_findings::specs::Pairs::starts_quiet))]
    fn touch(&self, node: Node, app: App) -> Touch
        ensures { result ≡ touch_of self.now.state self.now.event node app }
    {
        let starts = self.starts_now(node, app);
        let has_needs = !self.needs(app).is_empty();
        let quiet = starts && !self.is_local(app) && self.is_quiet(app);
        let needs = has_needs && self.boots_now(node, app);
        let goes = has_needs && self.goes_to(node, app);
        Touch {
            node,
            app,
            named: names(self.event, node, app),
            trial: self.trial(node, app),
            starts,
            quiet,
            needs,
            phases: self.is_booted_with_phases(node, app),
            helped: self.is_helped(node, app),
            goes,
        }
    }

    // Adds a node with an application, if the step touches them.
    fn push_touch(
        &self,
        touched: &mut Vec<Touch>,
        rises: bool,
        node: Node,
        app: App,
    ) -> Result<(), OutOfMemory>
        requires { rises ≡ comes_up self.now.state self.now.event node }
        ensures { OnOk result (touched.new.items
            ≡ touched.old.items ++ touched_with self.now.state self.now.event node app) }
    {
        if self.is_touched(rises, node, app) {
            touched.push(self.touch(node, app))?;
        }
        Ok(())
    }

    // Adds those of a node with these applications.
    fn push_among(
        &self,
        touched: &mut Vec<Touch>,
        rises: bool,
        node: Node,
        apps: &[App],
    ) -> Result<(), OutOfMemory>
        requires { rises ≡ comes_up self.now.state self.now.event node }
        ensures { OnOk result (touched.new.items ≡ touched.old.items
            ++ flat_map (touched_with self.now.state self.now.event node) apps.now) }
    {
        for app in apps {
            self.push_touch(touched, rises, node, *app)?;
        }
        Ok(())
    }

    // Adds those of a node. Most nodes don't come up at a step: of such a one only the applications that move are asked.
    #[tactic(auto, unfolding(rh_step_findings::specs::Touched::touched_at, rh_step_findings::specs::Touched::all_movers), using(crate::proofs::Untouched::only_movers))]
    fn push_touched(
        &self,
        touched: &mut Vec<Touch>,
        movers: &[App],
        node: Node,
    ) -> Result<(), OutOfMemory>
        requires { movers.now ≡ all_movers self.now.state self.now.event }
        ensures { OnOk result (touched.new.items
            ≡ touched.old.items ++ touched_at self.now.state self.now.event node) }
    {
        if self.comes_up(node) {
            self.push_among(touched, true, node, self.apps.as_slice())
        } else {
            self.push_among(touched, false, node, movers)
        }
    }

    /// All that the step touches, in the order of the cluster file, node by node.
    #[tactic(auto, unfolding(rh_step_findings::specs::Touched::all_touched))]
    pub(crate) fn touched_pairs(&self, alloc: Global) -> Result<Vec<Touch>, OutOfMemory>
        ensures { IfOk result
            (λ touched. touched.items ≡ all_touched self.now.state self.now.event) }
    {
        let mut touched = Vec::new(alloc);
        let movers = self.movers(alloc)?;
        let nodes = self.nodes.as_slice();
        for node in nodes {
            self.push_touched(&mut touched, movers.as_slice(), *node)?;
        }
        Ok(touched)
    }
}
