ghost use Rattle.std.specs.Prelude.{◌≡◌, ◌≢◌, ◌⊎◌};
ghost use Rattle.fsm_io.specs.Buffers.{most_gathered};
ghost use Rattle.fsm_io.specs.Causes.{Rose};
ghost use Rattle.reply_meaning.specs.declared.ending.Ending.{Ending};
ghost use Rattle.reply_meaning.specs.Transcripts.{HasAnswered};
ghost use Rattle.fsm_program.specs.Ends.{status_of};
ghost use Rattle.fsm_program.specs.Running.{most_taken};
ghost use Rattle.fsm_program.specs.Steps.{steps};

use crate::look_up::LookUp;
use crate::saying::status;
use crate::session::Session;
use fsm_io::{Lines, MOST_GATHERED, Outbox, Sink, Source};
use std::alloc::Global;
use std::thread::Threads;

/// The greatest number of bytes taken from one input.
pub const MOST_TAKEN: u64 = 1 << 40;

/// Answers the lines of the input in a session, or finds no memory for one.
pub fn answered<R: Threads + Sync, I: Source, O: Sink>(
    rt: &R,
    alloc: Global,
    look_up: LookUp,
    input: &mut I,
    output: &mut O,
) -> u8
    ensures answered { ((ending : Ending) × (result ≡ status_of ending) × HasAnswered (steps look_up) tt most_taken most_gathered (I.left input.old) (I.left input.new) (O.held output.old) (O.held output.new) ending) ⊎ (result ≡ 5) }
    ensures none { result ≡ 5 → (input.new ≡ input.old) × (output.new ≡ output.old) }
    ensures status { (result ≢ 1) × (result ≢ 2) × (result ≢ 7) }
    ensures read { result ≡ 3 → Rose (I.faults input.old) (I.faults input.new) }
    ensures write { result ≡ 4 → Rose (O.faults output.old) (O.faults output.new) }
{
    let Ok(lines) = Lines::open(alloc, MOST_TAKEN) else {
        return 5;
    };
    let Ok(outbox) = Outbox::open(alloc, MOST_GATHERED) else {
        return 5;
    };
    let session = Session {
        look_up,
        lines,
        outbox,
    };
    status(session.answer_all(rt, alloc, input, output))
}
