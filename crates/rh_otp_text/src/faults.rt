//! Errors, as Erlang writes them.

ghost use Rattle.std.specs.Prelude.{◌≡◌, ◌++◌, codes, OnOk};
ghost use Rattle.std.specs.String.{string_bytes};
ghost use Rattle.rh_otp_text.specs.Faults.{with_name, not_running, pair_front, failed_at, fault_words};

use rh_base::OutOfMemory;
use rh_calls::{app_word, dep_word, node_word};
use rh_model::{Cluster, Dep, Node};
use rh_otp_model::Fault;

// Adds `{what,name}`.
#[tactic(auto, unfolding(crate::specs::Faults::with_name))]
fn push_with_name(text: &mut String, what: &str, name: &str) -> Result<(), OutOfMemory>
    ensures { OnOk result
        (string_bytes text.new ≡ string_bytes text.old ++ with_name what.now name.now) }
{
    text.push_str("{")?;
    text.push_str(what)?;
    text.push_str(",")?;
    text.push_str(name)?;
    text.push_str("}")?;
    Ok(())
}

// Adds a word.
fn push_word(text: &mut String, word: &str) -> Result<(), OutOfMemory>
    ensures { OnOk result (string_bytes text.new ≡ string_bytes text.old ++ word.now) }
{
    text.push_str(word)?;
    Ok(())
}

// Adds the front of a pair, `{node,`.
#[tactic(auto, unfolding(crate::specs::Faults::pair_front))]
fn push_pair_front(text: &mut String, cluster: &Cluster, node: Node) -> Result<(), OutOfMemory>
    ensures { OnOk result
        (string_bytes text.new ≡ string_bytes text.old ++ pair_front cluster.now node) }
{
    text.push_str("{")?;
    text.push_str(node_word(cluster, node))?;
    text.push_str(",")?;
    Ok(())
}

// Adds that a dependency doesn't run.
#[tactic(auto, unfolding(crate::specs::Faults::not_running))]
fn push_not_running(text: &mut String, cluster: &Cluster, dep: Dep) -> Result<(), OutOfMemory>
    ensures { OnOk result
        (string_bytes text.new ≡ string_bytes text.old ++ not_running cluster.now dep) }
{
    push_with_name(text, "not_running", dep_word(cluster, dep))
}

// Adds the error of another node, at which a dependency doesn't run.
#[tactic(auto, unfolding(crate::specs::Faults::failed_at))]
fn push_failed_at(
    text: &mut String,
    cluster: &Cluster,
    node: Node,
    dep: Dep,
) -> Result<(), OutOfMemory>
    ensures { OnOk result
        (string_bytes text.new ≡ string_bytes text.old ++ failed_at cluster.now node dep) }
{
    push_pair_front(text, cluster, node)?;
    push_not_running(text, cluster, dep)?;
    push_word(text, "}")
}

/// Adds an error as Erlang writes it, with names as they stand in the file, without quotes.
#[tactic(auto, unfolding(crate::specs::Faults::fault_words))]
pub fn push_fault(text: &mut String, cluster: &Cluster, fault: Fault) -> Result<(), OutOfMemory>
    ensures { OnOk result
        (string_bytes text.new ≡ string_bytes text.old ++ fault_words cluster.now fault) }
{
    match fault {
        Fault::AlreadyStarted(app) => {
            push_with_name(text, "already_started", app_word(cluster, app))
        }
        Fault::NeedsStarted(dep) => push_with_name(text, "not_started", dep_word(cluster, dep)),
        Fault::NeedsRunning(dep) => push_not_running(text, cluster, dep),
        Fault::NotStarted(app) => push_with_name(text, "not_started", app_word(cluster, app)),
        Fault::NotRunning => push_word(text, "not_running"),
        Fault::Stopped => push_word(text, "stopped"),
        Fault::RunsLocally(app) => {
            push_with_name(text, "already_running_locally", app_word(cluster, app))
        }
        Fault::RunsNowhere(app) => {
            push_with_name(text, "not_running_distributed", app_word(cluster, app))
        }
        Fault::FailedAt(node, dep) => push_failed_at(text, cluster, node, dep),
    }
}
