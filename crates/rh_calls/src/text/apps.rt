//! The lines of the distributed applications.

ghost use Rattle.std.specs.Prelude.{◌≡◌, ◌++◌, ◌<◌, OnOk};
ghost use Rattle.std.specs.List.{flat_map};
ghost use Rattle.std.specs.String.{string_bytes};
ghost use Rattle.rh_model.specs.ClusterView.{app_count};
ghost use Rattle.rh_state.specs.Stored.{read};
ghost use Rattle.rh_calls.specs.Report.{standing_line, app_line, app_lines};

use crate::text::words::{app_word, push_standing_end};
use rh_base::OutOfMemory;
use rh_model::{App, Cluster};
use rh_state::{Standing, State};

// Adds the line of each distributed application.
#[tactic(auto, unfolding(rh_state::specs::Numbers::apps_of))]
pub(crate) fn push_apps(text: &mut String, state: &State) -> Result<(), OutOfMemory>
    ensures { OnOk result
        (string_bytes text.new ≡ string_bytes text.old ++ app_lines (read state.now)) }
{
    let count = state.cluster().app_count();
    for number in 0..count {
        push_app_line(text, state, App(number as u8))?;
    }
    Ok(())
}

// Adds the line of an application, if it is distributed.
#[tactic(auto, unfolding(crate::specs::Report::app_line))]
fn push_app_line(text: &mut String, state: &State, app: App) -> Result<(), OutOfMemory>
    requires { app.0 < app_count (read state.now).cluster }
    ensures { OnOk result
        (string_bytes text.new ≡ string_bytes text.old ++ app_line (read state.now) app) }
{
    let cluster = state.cluster();
    if cluster.spread(app).is_some() {
        push_standing_line(text, cluster, app, state.standing(app))?;
    }
    Ok(())
}

/// Adds the line of a distributed application that stands so. A number that no application or no node has is shown as a
/// question mark.
#[tactic(auto, unfolding(crate::specs::Report::standing_line))]
pub fn push_standing_line(
    text: &mut String,
    cluster: &Cluster,
    app: App,
    standing: Standing,
) -> Result<(), OutOfMemory>
    ensures { OnOk result
        (string_bytes text.new ≡ string_bytes text.old ++ standing_line cluster.now app standing) }
{
    text.push_str("app ")?;
    text.push_str(app_word(cluster, app))?;
    push_standing_end(text, cluster, standing)
}
