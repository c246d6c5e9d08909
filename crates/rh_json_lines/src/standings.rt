//! Where the distributed applications stand behind a plan.

ghost use Rattle.std.specs.Prelude.{◌≡◌, ◌++◌, OnOk};
ghost use Rattle.std.specs.List.{flat_map};
ghost use Rattle.rh_json_text.specs.Json.{json_array, behind_comma};
ghost use Rattle.rh_json_lines.specs.OutcomeLines.{stands_json};

use crate::reports::push_standing;
use rh_base::OutOfMemory;
use rh_cluster::{App, Cluster};
use rh_json_text::{close_array, push_text};
use rh_state::Standing;

// Adds applications, each behind a comma.
fn push_each_standing(
    out: &mut Vec<u8>,
    cluster: &Cluster,
    standings: &[(App, Standing)],
) -> Result<(), OutOfMemory>
    ensures { OnOk result (out.new.items
        ≡ out.old.items ++ flat_map (behind_comma (stands_json cluster.now)) standings.now) }
{
    for at in standings {
        push_text(out, ",")?;
        push_standing(out, cluster, at.0, at.1)?;
    }
    Ok(())
}

// Adds the array of the applications.
#[tactic(auto, using(rh_json_text::proofs::Arrays::array_is_closed))]
pub fn push_standings(
    out: &mut Vec<u8>,
    cluster: &Cluster,
    standings: &[(App, Standing)],
) -> Result<(), OutOfMemory>
    ensures { OnOk result
        (out.new.items ≡ out.old.items ++ json_array (stands_json cluster.now) standings.now) }
{
    let start = out.len();
    push_each_standing(out, cluster, standings)?;
    close_array(out, start)
}
