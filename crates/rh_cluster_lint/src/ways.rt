//! The way to a part.

ghost use Rattle.std.specs.Prelude.{◌≡◌, ◌++◌, IfOk, OnOk};
ghost use Rattle.std.specs.List.{flat_map};
ghost use Rattle.std.specs.String.{string_bytes};
ghost use Rattle.rh_cluster_lint.specs.Ways.{term_way, is_named, step_way, way};

use crate::blame::Step;
use crate::spans::span;
use crate::words::{first_word, is_tuple, second_word};
use rh_base::{OutOfMemory, Str};
use std::alloc::Global;

// Adds the term's kind and its name; of one that is no tuple its number.
#[tactic(auto, unfolding(crate::specs::Ways::term_way))]
pub fn push_term(way: &mut String, text: &[u8], step: Step) -> Result<(), OutOfMemory>
    ensures { OnOk result (string_bytes way.new ≡ string_bytes way.old ++ term_way text.now step) }
{
    let bytes = span(text, step.part);
    if is_tuple(bytes) {
        let kind = first_word(bytes);
        let name = second_word(bytes);
        write!(way, "{kind} {name}")?;
    } else {
        let number = step.number;
        write!(way, "term {number}")?;
    }
    Ok(())
}

// Has it a name, as a section, a key or a parameter?
pub fn is_named(text: &[u8], step: Step) -> bool
    ensures { result ≡ is_named text.now step }
{
    let bytes = span(text, step.part);
    step.part.depth < 6 && is_tuple(bytes) && !first_word(bytes).is_empty()
}

// Adds its name; of another element its number.
#[tactic(auto, unfolding(crate::specs::Ways::step_way))]
fn push_step(way: &mut String, text: &[u8], step: Step) -> Result<(), OutOfMemory>
    ensures { OnOk result (string_bytes way.new ≡ string_bytes way.old ++ step_way text.now step) }
{
    if is_named(text, step) {
        let name = first_word(span(text, step.part));
        write!(way, ", {name}")?;
    } else {
        let number = step.number;
        write!(way, ", element {number}")?;
    }
    Ok(())
}

// Adds those of some steps.
fn push_steps(way: &mut String, text: &[u8], steps: &[Step]) -> Result<(), OutOfMemory>
    ensures { OnOk result
        (string_bytes way.new ≡ string_bytes way.old ++ flat_map (step_way text.now) steps.now) }
{
    for step in steps {
        push_step(way, text, *step)?;
    }
    Ok(())
}

/// The way to a part from its term on: the term's kind and name, the section or key in it, the parameter, and the number of an element.
#[tactic(auto, unfolding(crate::specs::Ways::way))]
pub fn way(alloc: Global, text: &[u8], steps: &[Step]) -> Result<Str, OutOfMemory>
    ensures { IfOk result (λ told. told ≡ way text.now steps.now) }
{
    let mut way = String::new(alloc);
    if let [term, parts @ ..] = steps {
        push_term(&mut way, text, *term)?;
        push_steps(&mut way, text, parts)?;
    }
    Ok(Str::of(way))
}
