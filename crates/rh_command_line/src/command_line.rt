//! The command line.

ghost use Rattle.std.specs.Prelude.{◌≡◌, ◌⊎◌, map, IfOk, IfErr};
ghost use Rattle.std.specs.String.{string_bytes};
ghost use Rattle.clap.specs.Words.{kind_of};
ghost use Rattle.rh_command_line.specs.Asking.{AsksFor, IsAsked, IsAskedBy, IsNotUtf8, IsRefusedBy, Refuses};
ghost use Rattle.rh_command_line.specs.CommandLine.{AreNames};

use crate::building::{Names, whole_command};
use crate::reading::program_among;
use crate::reasons::why_none;
use clap::Error;
use clap::error::ErrorKind;
use rh_asked::Program;
use std::alloc::Global;

// The choices at a tie.
static PICKS: [&str; 2] = ["first", "last"];

// The rules by which a script is answered.
static RULES: [&str; 2] = ["manual", "otp25"];

/// What a command line asks.
#[derive(Drop)]
pub enum Asked {
    /// It asks for a program.
    For(Program),
    /// It is refused, with this text.
    Refused(Error),
    /// A growth was refused.
    OutOfMemory,
}

/// The words of a command line, of which the first is the program's name.
#[derive(Drop)]
pub enum Words {
    /// These are all of them.
    Given(Vec<String>),
    /// One of them isn't UTF-8.
    NotUtf8,
    /// A growth was refused.
    OutOfMemory,
}

/// What the words of a command line ask.
pub fn asked_of(alloc: Global, words: &Words) -> Asked
    ensures { IsAsked words.now result }
{
    match words {
        Words::Given(words) => asked_by(alloc, words.as_slice()),
        Words::NotUtf8 => not_utf8(alloc),
        Words::OutOfMemory => Asked::OutOfMemory,
    }
}

// What these words ask.
fn asked_by(alloc: Global, words: &[String]) -> Asked
    ensures { IsAskedBy (map string_bytes words.now) result }
{
    match program_of(alloc, words) {
        Ok(program) => Asked::For(program),
        Err(error) => refused_by(error),
    }
}

// A command line with a word that isn't UTF-8 is refused, in the form of `clap`'s other refusals.
fn not_utf8(alloc: Global) -> Asked
    ensures { IsNotUtf8 result }
{
    let text = "a word of the command line isn't UTF-8";
    match refusal(alloc, ErrorKind::InvalidValue, text) {
        Ok(error) => refused_by(error),
        Err(error) => refused_by(error),
    }
}

// The command line is refused with this error, or memory was.
fn refused_by(error: Error) -> Asked
    ensures { IsRefusedBy error result }
{
    if error.kind() == ErrorKind::OutOfMemory {
        Asked::OutOfMemory
    } else {
        Asked::Refused(error)
    }
}

// The names that options take.
fn names<'a>() -> Names<'a>
    ensures { AreNames result }
{
    Names {
        picks: PICKS.as_slice(),
        rules: RULES.as_slice(),
    }
}

// An error of this kind and with this text, in the form of `clap`'s own.
fn refusal(alloc: Global, kind: ErrorKind, text: &str) -> Result<Error, Error>
    ensures ok { IfOk result (λ error. kind_of error ≡ kind) }
    ensures err { IfErr result (λ error. kind_of error ≡ ErrorKind.OutOfMemory) }
{
    let mut command = whole_command(alloc, names())?;
    let error = command.error(kind, text)?;
    Ok(error)
}

// The program that the words ask for, or why there is none.
fn program_of(alloc: Global, words: &[String]) -> Result<Program, Error>
    ensures ok { IfOk result (AsksFor (map string_bytes words.now)) }
    ensures err { IfErr result (λ error. (kind_of error ≡ ErrorKind.OutOfMemory)
        ⊎ Refuses (map string_bytes words.now) error) }
{
    let command = whole_command(alloc, names())?;
    let matches = command.try_get_matches_from(words)?;
    match program_among(&matches) {
        Some(program) => Ok(program),
        None => Err(refusal(alloc, ErrorKind::InvalidSubcommand, why_none(&matches))?),
    }
}
