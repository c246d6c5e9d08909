//! What a parameter, a key or a section takes.

ghost use Rattle.std.specs.Prelude.{◌≡◌};
ghost use Rattle.rh_cluster_lint.specs.Expected.{expected};

/// What stands in a parameter, a key or a section of this name, as words behind `; `; none where the name isn't read.
pub fn expected_words(name: &str) -> &'static str
    ensures { result.now ≡ expected name.now }
{
    if name == "distributed" {
        "; it takes a list of {App, Nodes} or {App, Timeout, Nodes}, Timeout from 0 to 10^12"
    } else if name == "sync_nodes_mandatory" {
        "; it takes a list of node names"
    } else if name == "sync_nodes_optional" {
        "; it takes a list of node names"
    } else if name == "sync_nodes_timeout" {
        "; it takes 0 to 10^12 milliseconds, infinity or undefined"
    } else if name == "permissions" {
        "; it takes a list of {App, true} or {App, false}"
    } else if name == "boot" {
        "; it takes a list of {App, permanent}, {App, transient} or {App, temporary}"
    } else if name == "platform" {
        "; it takes a list of names"
    } else if name == "applications" {
        "; it takes a list of names"
    } else if name == "mod" {
        "; it takes {Module, StartArg} or []"
    } else if name == "start_phases" {
        "; it takes undefined, or a list of {Phase, Argument}"
    } else if name == "kernel" {
        "; it takes a list of {Name, Value}"
    } else if name == "rehearse" {
        "; it takes a list of {boot, Applications} and {platform, Names}"
    } else {
        ""
    }
}
