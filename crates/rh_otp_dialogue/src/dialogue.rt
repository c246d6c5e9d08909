//! The program `run --rules otp25 --interactive`.

ghost use Rattle.std.specs.Prelude.{◌≡◌, false};
ghost use Rattle.rh_manner.specs.DialogueText.{DialogueGives};
ghost use Rattle.rh_otp_dialogue.specs.LiveVoices.{live_voiced};

use crate::voice::LiveVoice;
use rh_devices::{Sink, Source, Watched};
use rh_manner::run_dialogue_by;
use rh_run::RunFault;
use std::alloc::Global;

/// Reads a cluster file, a line `===` and a script, and writes the answer of live nodes to each command before it reads on: what
/// `run_live` of `rh_otp_run` writes in its plain manner, or what `live_json` of `rh_otp_json` does, as the voice says. When it is
/// written, and how the dialogue ends, is as `run_dialogue_by` of `rh_manner` has it.
///
/// # Errors
/// Those of `run_dialogue_by`.
pub fn run_live_dialogue<D: Source + Sink>(
    alloc: Global,
    device: &mut Watched<D>,
    voice: LiveVoice,
) -> Result<(), RunFault>
    requires { device.old.failed ≡ false }
    ensures { DialogueGives D.Source.gives D.Source.fails D.Sink.takes D.Sink.flushes D.Sink.fails
        (live_voiced voice) result device.old device.new }
{
    run_dialogue_by(alloc, device, &voice)
}
