//! `sync_nodes_timeout`.

ghost use Rattle.std.specs.Prelude.{◌≡◌};
ghost use Rattle.std.specs.Option.{option_map};
ghost use Rattle.rh_base.specs.Tree.{tree_of};
ghost use Rattle.rh_otp_file.specs.Waits.{wait_of, wait_in};

use rh_base::Term;
use rh_otp_model::Wait;

// What a written value means to a live node.
#[tactic(auto, unfolding(crate::specs::Waits::wait_of))]
fn wait_of(value: &Term) -> Wait
    ensures { result ≡ wait_of (tree_of value.now) }
{
    match value {
        Term::Int(number) if 0 < *number => Wait::After(*number as u64),
        Term::Atom(word) if word.as_str() == "infinity" => Wait::Forever,
        _ => Wait::Refused,
    }
}

/// The same of a value that may not be there.
pub fn wait_in(value: Option<&Term>) -> Wait
    ensures { result ≡ wait_in (option_map (λ t. tree_of t.now) value.entry) }
{
    match value {
        Some(value) => wait_of(value),
        None => Wait::Unset,
    }
}
