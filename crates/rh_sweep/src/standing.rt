//! Where the distributed applications of a state stand.

ghost use Rattle.std.specs.Prelude.{◌≡◌, ◌<◌, ◌++◌, IfOk, OnOk};
ghost use Rattle.rh_model.specs.ClusterView.{app_count};
ghost use Rattle.rh_state.specs.Stored.{read};
ghost use Rattle.rh_outcomes.specs.Outcomes.{standing_in, standings_in};

use rh_base::OutOfMemory;
use rh_model::App;
use rh_plans::Standings;
use rh_state::{Standing, State};
use std::alloc::Global;

/// The distributed applications of a state, and where they stand.
#[tactic(auto, unfolding(rh_state::specs::Numbers::apps_of))]
pub(crate) fn standings_in(alloc: Global, state: &State) -> Result<Standings, OutOfMemory>
    ensures { IfOk result (λ standings. standings ≡ standings_in (read state.now)) }
{
    let mut standings = Vec::with_capacity(alloc, state.cluster().app_count())?;
    for number in 0..state.cluster().app_count() {
        push_standing(&mut standings, state, App(number as u8))?;
    }
    standings.shrink_to_fit();
    Standings::of(alloc, standings)
}

// Adds an application and where it stands, if it is distributed.
#[tactic(auto, unfolding(rh_outcomes::specs::Outcomes::standing_in))]
fn push_standing(
    standings: &mut Vec<(App, Standing)>,
    state: &State,
    app: App,
) -> Result<(), OutOfMemory>
    requires { app.0 < app_count (read state.now).cluster }
    ensures { OnOk result
        (standings.new.items ≡ standings.old.items ++ standing_in (read state.now) app) }
{
    if state.cluster().spread(app).is_some() {
        standings.push((app, state.standing(app)))?;
    }
    Ok(())
}
