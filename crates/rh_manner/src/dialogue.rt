//! The program: each line is answered before more is read.

ghost use Rattle.std.specs.Prelude.{◌≡◌, false};
ghost use Rattle.rh_manner.specs.DialogueText.{DialogueGives};
ghost use Rattle.rh_manner.specs.Speech.{spoken};
ghost use Rattle.rh_manner.specs.Talking.{TalkGives};
ghost use Rattle.rh_manner.specs.Voices.{voiced};

use crate::ear::{Ear, Hearing};
use crate::fault::DialogueFault;
use crate::speaker::Speaker;
use crate::stage::{Stage, Turn, finish, take};
use crate::voice::Voice;
use rh_devices::{Sink, Source, Watched};
use rh_run::{RunFault, Told, ended};
use std::alloc::Global;

/// Reads a cluster file, a line `===` and a script, and writes the answer to each command before it reads on, as [`run_dialogue_by`]
/// does, by the manual's rules: what `run` of `rh_run` writes, or what `run_json` of `rh_json` does, as the voice says.
///
/// # Errors
/// Those of [`run_dialogue_by`].
pub fn run_dialogue<D: Source + Sink>(
    alloc: Global,
    device: &mut Watched<D>,
    voice: Voice,
) -> Result<(), RunFault>
    requires { device.old.failed ≡ false }
    ensures { DialogueGives D.Source.gives D.Source.fails D.Sink.takes D.Sink.flushes D.Sink.fails
        (voiced voice) result device.old device.new }
{
    run_dialogue_by(alloc, device, &voice)
}

/// Reads a cluster file, a line `===` and a script, and writes the answer to each command before it reads on: each time that the
/// device is asked for more, all that is said of the lines that have come whole was written and flushed. What is said the speaker
/// decides. Before the line `===` has come whole nothing is written.
///
/// It ends at the end of the input, or at the first fault that the text tells, without asking for more. The input has at most
/// 16,777,216 bytes. What was written last isn't flushed.
///
/// # Errors
/// `Cluster` and `BadLine` are the end of the text that was written. `Read` comes where the device has failed when it was asked,
/// or gave too much; `Write` where it has failed when it was offered bytes or flushed; `OutOfMemory` where a growth was refused:
/// what was written is a front of the text of all that was read.
pub fn run_dialogue_by<D: Source + Sink, T: Speaker>(
    alloc: Global,
    device: &mut Watched<D>,
    speaker: &T,
) -> Result<(), RunFault>
    requires { device.old.failed ≡ false }
    ensures { DialogueGives D.Source.gives D.Source.fails D.Sink.takes D.Sink.flushes D.Sink.fails
        (spoken (T.speech speaker.now)) result device.old device.new }
{
    let told = talk(alloc, device, speaker)?;
    ended(told)
}

// Answers each line before more is read. The answer is what the whole text tells.
fn talk<D: Source + Sink, T: Speaker>(
    alloc: Global,
    device: &mut Watched<D>,
    speaker: &T,
) -> Result<Option<Told>, DialogueFault>
    requires { device.old.failed ≡ false }
    ensures { TalkGives D.Source.gives D.Source.fails D.Sink.takes D.Sink.flushes D.Sink.fails
        (spoken (T.speech speaker.now)) result device.old device.new }
{
    let mut ear = Ear::new(alloc);
    let mut stage = Stage::Cluster(Vec::new(alloc));
    'talk: loop {
        let heard = ear.hear(alloc, device)?;
        match heard {
            Hearing::Lines(lines) => {
                let turn = take(alloc, stage, lines.as_slice(), device, speaker)?;
                match turn {
                    Turn::Goes(next) => stage = next,
                    Turn::Ends(told) => return Ok(Some(told)),
                }
            }
            Hearing::End => {
                let told = finish(alloc, stage, ear.rest.as_slice(), device, speaker)?;
                return Ok(told);
            }
        }
    }
}
