//! What the lines of a sweep ask: a base, and then plans.

ghost use Rattle.std.specs.Prelude.{List, [], ◌∷◌, ◌≡◌, ◌++◌, IfOk, IsTrue, OnOk, map};
ghost use Rattle.std.specs.Option.{option_map};
ghost use Rattle.rh_script.specs.Lines.{raw_lines, content};
ghost use Rattle.rh_script.specs.Commands.{calls_of, words_of};
ghost use Rattle.rh_script.specs.SweepLines.{plan_named, sweep_command, sweep_line_of, sweep_lines_asked, fits_sweep, fits_plan, fits_base};
ghost use Rattle.rh_script.specs.SweepLines.{begun_by, event_in, IsSweepOf, plan_text};
ghost use Rattle.rh_script.specs.SweepReading.{read_on, is_begun};

use crate::lines::{content, split_line};
use crate::script::{Line, begins_with, command_of, first_words, text_of};
use rh_base::{OutOfMemory, Str, text_of_bytes};
use rh_calls::Call;
use rh_cluster::Cluster;
use rh_plans::Plan;
use rh_rules::Event;
use std::alloc::Global;

/// What a line of a sweep asks.
#[derive(Drop)]
pub enum SweepLine {
    /// It begins a plan of this name.
    Begins(Str),
    /// It is a line as any script has it.
    Plain(Line),
}

/// A base and plans.
#[derive(Drop)]
pub enum SweepScript {
    /// The commands of the base and the plans, in the order of their lines.
    Sweep { base: Vec<Call>, plans: Vec<Plan> },
    /// The line of this number, counted from 1, is no command; or a plan was begun, and it is no event.
    BadLine(u64),
}

// The name of the plan that the words begin.
fn plan_named<'a>(words: &[&'a str]) -> Option<&'a str>
    ensures { option_map (λ name. name.now) result ≡ plan_named (map (λ word. word.now) words.now) }
{
    match words {
        [word, name] => { if *word == "plan" { Some(*name) } else { None } }
        _ => None,
    }
}

// What the words ask.
fn sweep_command(alloc: Global, cluster: &Cluster, words: &[&str]) -> Result<SweepLine, OutOfMemory>
    ensures { IfOk result
        (λ asked. asked ≡ sweep_command cluster.now (map (λ word. word.now) words.now)) }
{
    match plan_named(words) {
        Some(name) => Ok(SweepLine::Begins(text_of_bytes(alloc, name.as_bytes())?)),
        None => Ok(SweepLine::Plain(command_of(cluster, words))),
    }
}

// What the words of a line ask.
fn sweep_command_in(alloc: Global, cluster: &Cluster, line: &str) -> Result<SweepLine, OutOfMemory>
    ensures { IfOk result (λ asked. asked ≡ sweep_command cluster.now (words_of line.now)) }
{
    sweep_command(alloc, cluster, first_words(line).as_slice())
}

// What a line asks: `plan NAME` begins a plan, and any other line is read as a line of any script.
#[tactic(auto, unfolding(crate::specs::SweepLines::sweep_line_of))]
fn sweep_line_of(alloc: Global, cluster: &Cluster, line: &[u8]) -> Result<SweepLine, OutOfMemory>
    ensures { IfOk result (λ asked. asked ≡ sweep_line_of cluster.now line.now) }
{
    // A comment.
    if begins_with(b'#', line) {
        return Ok(SweepLine::Plain(Line::Nothing));
    }
    let Some(text) = text_of(line) else {
        return Ok(SweepLine::Plain(Line::Bad));
    };
    sweep_command_in(alloc, cluster, text)
}

/// The base and the plans of a script, or the number of its first bad line.
pub fn sweep_in(alloc: Global, cluster: &Cluster, script: &[u8]) -> Result<SweepScript, OutOfMemory>
    ensures { IfOk result
        (IsSweepOf (sweep_lines_asked cluster.now (map content (raw_lines script.now)))) }
{
    let mut base = Vec::new(alloc);
    let mut plans = Vec::new(alloc);
    let mut rest = script;
    let mut number: u64 = 1;
    'lines: while !rest.is_empty() {
        let (line, after) = split_line(rest);
        let asked = sweep_line_of(alloc, cluster, content(line))?;
        if !take_line(alloc, &mut base, &mut plans, asked)? {
            return Ok(SweepScript::BadLine(number));
        }
        rest = after;
        number += 1;
    }
    Ok(SweepScript::Sweep { base, plans })
}

// Takes a line to the base and the plans that were read. The answer is false where the line doesn't fit.
fn take_line(
    alloc: Global,
    base: &mut Vec<Call>,
    plans: &mut Vec<Plan>,
    asked: SweepLine,
) -> Result<bool, OutOfMemory>
    ensures fits { IfOk result
        (λ taken. taken ≡ fits_sweep (is_begun (map plan_text plans.old.items)) asked) }
    ensures begun { IfOk result (λ taken. IsTrue taken → is_begun (map plan_text plans.new.items)
        ≡ begun_by (is_begun (map plan_text plans.old.items)) asked) }
    ensures taken { IfOk result (λ taken. IsTrue taken → (lines : List SweepLine)
        → read_on base.old.items (map plan_text plans.old.items) (asked ∷ lines)
        ≡ read_on base.new.items (map plan_text plans.new.items) lines) }
{
    match asked {
        SweepLine::Begins(name) => {
            let events = Vec::new(alloc);
            plans.push(Plan { name, events })?;
            Ok(true)
        }
        SweepLine::Plain(line) => match plans.pop() {
            None => take_call(base, line),
            Some(mut plan) => {
                let taken = take_event(&mut plan.events, line)?;
                plans.push(plan)?;
                Ok(taken)
            }
        },
    }
}

// Adds the call of a line of the base. The answer is false where the line doesn't fit.
fn take_call(base: &mut Vec<Call>, line: Line) -> Result<bool, OutOfMemory>
    ensures fits { IfOk result (λ taken. taken ≡ fits_base line) }
    ensures taken { IfOk result (λ taken. base.new.items ≡ base.old.items ++ calls_of (line ∷ [])) }
{
    match line {
        Line::Nothing => Ok(true),
        Line::Bad => Ok(false),
        Line::Asks(call) => {
            base.push(call)?;
            Ok(true)
        }
    }
}

// Adds the event of a line of a plan. The answer is false where the line doesn't fit.
fn take_event(events: &mut Vec<Event>, line: Line) -> Result<bool, OutOfMemory>
    ensures fits { IfOk result (λ taken. taken ≡ fits_plan line) }
    ensures taken { OnOk result (events.new.items ≡ events.old.items ++ event_in line) }
{
    match line {
        Line::Nothing => Ok(true),
        Line::Asks(Call::Step(event)) => {
            events.push(event)?;
            Ok(true)
        }
        _ => Ok(false),
    }
}
