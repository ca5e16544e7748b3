ghost use Rattle.std.specs.Prelude.{◌≡◌, ◌⊎◌, Some};
ghost use Rattle.fsm_io.specs.Causes.{Rose};
ghost use Rattle.fsm_program.specs.Ends.{Ends, for_pairs};
ghost use Rattle.fsm_program.specs.Files.{AskedForFiles};
ghost use Rattle.fsm_program.specs.Outside.{outside};

use crate::answering::answered;
use crate::load::{MOST_READ, load};
use crate::look_up::{LookUp, Subject};
use crate::saying::{not_loaded, said};
use fsm_base::Text;
use fsm_io::{Folder, Sink, Source};
use pair_lines::Opened;
use std::alloc::Global;
use std::thread::Threads;

/// Answers the lines of the input, strings of pairs, by the rules of a name of the folder's project.
pub fn pair<R: Threads + Sync, F: Folder, I: Source, O: Sink>(
    rt: &R,
    alloc: Global,
    version: u64,
    net: Text,
    folder: &mut F,
    input: &mut I,
    output: &mut O,
) -> u8
    ensures ends { Ends version (Some (for_pairs net)) (outside (F.files folder.old) (F.faults folder.old) (I.left input.old) (I.faults input.old) (O.held output.old) (O.faults output.old)) (outside (F.files folder.new) (F.faults folder.new) (I.left input.new) (I.faults input.new) (O.held output.new) (O.faults output.new)) result }
    ensures unread { (result ≡ 1) ⊎ (result ≡ 2) ⊎ (result ≡ 5) → input.new ≡ input.old }
    ensures unread_declined { result ≡ 7 → input.new ≡ input.old }
    ensures unwritten { result ≡ 5 → output.new ≡ output.old }
    ensures folder_failed { Rose (F.faults folder.old) (F.faults folder.new) → (result ≡ 3) × (input.new ≡ input.old) × (output.new ≡ output.old) }
    ensures read { result ≡ 3 → Rose (F.faults folder.old) (F.faults folder.new) ⊎ Rose (I.faults input.old) (I.faults input.new) }
    ensures write { result ≡ 4 → Rose (O.faults output.old) (O.faults output.new) }
    ensures asked { AskedForFiles (F.files folder.old) (F.asked folder.old) (F.asked folder.new) }
{
    let ready = match load(alloc, folder, MOST_READ) {
        Ok(ready) => ready,
        Err(error) => return not_loaded(alloc, error, output),
    };
    match Opened::of(alloc, &ready, version, net) {
        Ok(Opened::Rules(rules)) => {
            let look_up = LookUp {
                subject: Subject::Rules(rules),
                version,
            };
            answered(rt, alloc, look_up, input, output)
        }
        Ok(Opened::Refusal(line)) => said(output, &line, 7),
        Err(_) => 5,
    }
}
