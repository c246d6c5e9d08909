//! The parts of a state in words.

ghost use Rattle.std.specs.Prelude.{◌≡◌, ◌++◌, codes, OnOk};
ghost use Rattle.std.specs.Fmt.{decimal};
ghost use Rattle.std.specs.String.{string_bytes};
ghost use Rattle.rh_calls.specs.Report.{node_word, app_word, dep_word, mode_words, restart_words, kind_words, standing_words};

use itoa::Buffer;
use rh_base::OutOfMemory;
use rh_model::{App, Cluster, Dep, Node, Restart};
use rh_state::{Kind, Mode, Standing};

/// What is shown for a name that is missing.
pub const NO_NAME: &str = "?";

/// The name of a node, or a question mark for a number that no node has.
pub fn node_word<'a>(cluster: &'a Cluster, node: Node) -> &'a str
    ensures { result.now ≡ node_word cluster.now node }
{
    if (node.0 as usize) < cluster.node_count() {
        cluster.node_name(node)
    } else {
        NO_NAME
    }
}

/// The name of an application, or a question mark for a number that no application has.
pub fn app_word<'a>(cluster: &'a Cluster, app: App) -> &'a str
    ensures { result.now ≡ app_word cluster.now app }
{
    if (app.0 as usize) < cluster.app_count() {
        cluster.app_name(app)
    } else {
        NO_NAME
    }
}

/// The name of a dependency, or a question mark for one that isn't of this cluster.
pub fn dep_word<'a>(cluster: &'a Cluster, dep: Dep) -> &'a str
    ensures { result.now ≡ dep_word cluster.now dep }
{
    match dep {
        Dep::Listed(app) => app_word(cluster, app),
        Dep::Platform(number) if (number as usize) < cluster.platform_count() => {
            cluster.dep_name(dep)
        }
        Dep::Platform(_) => NO_NAME,
    }
}

// A mode as a word between two spaces: one text to add in place of three.
pub(crate) fn spaced_mode(mode: Mode) -> &'static str
    ensures { result.now ≡ codes " " ++ mode_words mode ++ codes " " }
{
    match mode {
        Mode::Down => " down ",
        Mode::Waiting => " waiting ",
        Mode::Up => " up ",
    }
}

/// A restart type as a word.
pub fn restart_word(restart: Restart) -> &'static str
    ensures { result.now ≡ restart_words restart }
{
    match restart {
        Restart::Permanent => "permanent",
        Restart::Transient => "transient",
        Restart::Temporary => "temporary",
    }
}

// A restart type as a word between two spaces.
pub(crate) fn spaced_restart(restart: Restart) -> &'static str
    ensures { result.now ≡ codes " " ++ restart_words restart ++ codes " " }
{
    match restart {
        Restart::Permanent => " permanent ",
        Restart::Transient => " transient ",
        Restart::Temporary => " temporary ",
    }
}

// A restart type as the last word of a line, with the space before it and the line's end.
pub(crate) fn last_restart(restart: Restart) -> &'static str
    ensures { result.now ≡ codes " " ++ restart_words restart ++ codes "\n" }
{
    match restart {
        Restart::Permanent => " permanent\n",
        Restart::Transient => " transient\n",
        Restart::Temporary => " temporary\n",
    }
}

/// Adds a number in decimal digits.
pub fn push_decimal(text: &mut String, number: u64) -> Result<(), OutOfMemory>
    ensures { OnOk result (string_bytes text.new ≡ string_bytes text.old ++ decimal number) }
{
    let mut buffer = Buffer::new();
    text.push_str(buffer.format(number))?;
    Ok(())
}

/// Adds how an application was started, with the node that it came from.
pub fn push_kind(text: &mut String, cluster: &Cluster, kind: Kind) -> Result<(), OutOfMemory>
    ensures { OnOk result
        (string_bytes text.new ≡ string_bytes text.old ++ kind_words cluster.now kind) }
{
    match kind {
        Kind::Normal => text.push_str("normal")?,
        Kind::Failover(node) => {
            text.push_str("failover ")?;
            text.push_str(node_word(cluster, node))?;
        }
        Kind::Takeover(node) => {
            text.push_str("takeover ")?;
            text.push_str(node_word(cluster, node))?;
        }
    }
    Ok(())
}

// Adds how an application was started, and the end of its line.
pub(crate) fn push_kind_end(
    text: &mut String,
    cluster: &Cluster,
    kind: Kind,
) -> Result<(), OutOfMemory>
    ensures { OnOk result (string_bytes text.new
        ≡ string_bytes text.old ++ (kind_words cluster.now kind ++ codes "\n")) }
{
    match kind {
        Kind::Normal => text.push_str("normal\n")?,
        Kind::Failover(_) | Kind::Takeover(_) => {
            push_kind(text, cluster, kind)?;
            text.push_str("\n")?;
        }
    }
    Ok(())
}

// Adds the name of a node, and the end of its line.
fn push_node_end(text: &mut String, cluster: &Cluster, node: Node) -> Result<(), OutOfMemory>
    ensures { OnOk result (string_bytes text.new
        ≡ string_bytes text.old ++ (node_word cluster.now node ++ codes "\n")) }
{
    text.push_str(node_word(cluster, node))?;
    text.push_str("\n")?;
    Ok(())
}

// Adds a space, where a distributed application stands, and the end of its line.
pub(crate) fn push_standing_end(
    text: &mut String,
    cluster: &Cluster,
    standing: Standing,
) -> Result<(), OutOfMemory>
    ensures { OnOk result (string_bytes text.new ≡ string_bytes text.old
        ++ (codes " " ++ standing_words cluster.now standing ++ codes "\n")) }
{
    match standing {
        Standing::Quiet => text.push_str(" quiet\n")?,
        Standing::Wanted(None) => text.push_str(" wanted\n")?,
        Standing::Wanted(Some(node)) => {
            text.push_str(" wanted ")?;
            push_node_end(text, cluster, node)?;
        }
        Standing::Running(node) => {
            text.push_str(" running ")?;
            push_node_end(text, cluster, node)?;
        }
        Standing::Lost(node) => {
            text.push_str(" lost ")?;
            push_node_end(text, cluster, node)?;
        }
    }
    Ok(())
}
