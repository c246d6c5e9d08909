//! Names in values, each among the terms before it.

ghost use Rattle.std.specs.Prelude.{◌≡◌, map, filter_map};
ghost use Rattle.std.specs.Option.{option_map};
ghost use Rattle.rh_base.specs.Tree.{tree_of};
ghost use Rattle.rh_cluster.specs.Faults.{FindsFirst};
ghost use Rattle.rh_cluster.specs.Tests.{TellsValues};
ghost use Rattle.rh_model.specs.Names.{is_among};
ghost use Rattle.rh_cluster.specs.Shapes.{atoms};
ghost use Rattle.rh_cluster.specs.Sections.{word_faults, node_name_faults, app_name_faults, app_in, pair_faults};

use crate::fault::ClusterFault;
use crate::lists::check_shape;
use crate::name_rule::is_name;
use crate::shapes;
use rh_base::Term;
use rh_model::Names;

/// Is one of these an atom of this name?
pub fn repeats_atom(name: &str, earlier: &[Term]) -> bool
    ensures { result ≡ is_among (atoms (map tree_of earlier.now)) name.now }
{
    for term in earlier {
        if shapes::atom(term) == Some(name) {
            return true;
        }
    }
    false
}

// The application that a tuple begins with.
#[tactic(auto, unfolding(crate::specs::Sections::app_in))]
fn app_in(term: &Term) -> Option<&str>
    ensures { option_map (λ name. name.now) result ≡ app_in (tree_of term.now) }
{
    match shapes::tuple(term)? {
        [first, ..] => shapes::atom(first),
        [] => None,
    }
}

// Does one of these begin with this application?
fn repeats_app(name: &str, earlier: &[Term]) -> bool
    ensures { result ≡ is_among (filter_map app_in (map tree_of earlier.now)) name.now }
{
    for term in earlier {
        if app_in(term) == Some(name) {
            return true;
        }
    }
    false
}

/// Tests the name that stands in a value.
#[tactic(auto, unfolding(crate::specs::Sections::word_faults))]
pub fn check_word(name: &str, is_known: bool, is_repeated: bool) -> Result<(), ClusterFault>
    ensures { FindsFirst result (word_faults name.now is_known is_repeated) }
{
    if !is_name(name) {
        return Err(ClusterFault::BadName);
    }
    if !is_known {
        return Err(ClusterFault::UnknownName);
    }
    if is_repeated {
        return Err(ClusterFault::DuplicateInList);
    }
    Ok(())
}

/// Tests a node's name in a list of them.
#[tactic(auto, unfolding(crate::specs::Sections::node_name_faults, crate::specs::Sections::name_faults))]
pub fn check_node_name(names: &Names, earlier: &[Term], term: &Term) -> Result<(), ClusterFault>
    ensures { FindsFirst result
        (node_name_faults names.now (map tree_of earlier.now) (tree_of term.now)) }
{
    let name = shapes::atom(term).ok_or(ClusterFault::BadValue)?;
    check_word(name, names.has_node(name), repeats_atom(name, earlier))
}

/// Tests the name of an application at the front of an entry, behind earlier entries.
#[tactic(auto, unfolding(crate::specs::Sections::app_name_faults, crate::specs::Sections::name_faults))]
pub fn check_app_name(names: &Names, earlier: &[Term], term: &Term) -> Result<(), ClusterFault>
    ensures { FindsFirst result
        (app_name_faults names.now (map tree_of earlier.now) (tree_of term.now)) }
{
    let name = shapes::atom(term).ok_or(ClusterFault::BadValue)?;
    check_word(name, names.has_app(name), repeats_app(name, earlier))
}

/// Tests an entry `{App, Value}`, behind earlier entries.
pub fn check_pair<F: Fn(&Term) -> bool>(
    names: &Names,
    earlier: &[Term],
    term: &Term,
    is_value: F,
) -> Result<(), ClusterFault>
    requires { F.IsAlwaysCallable is_value }
    ensures { (values : _) → TellsValues F.Fn is_value values → FindsFirst result
        (pair_faults names.now values (map tree_of earlier.now) (tree_of term.now)) }
{
    let (app, value) = shapes::pair(term).ok_or(ClusterFault::BadValue)?;
    check_app_name(names, earlier, app)?;
    check_shape(is_value(value))
}
