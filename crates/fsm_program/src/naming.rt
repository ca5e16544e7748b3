ghost use Rattle.std.specs.Prelude.{◌≡◌, ℕ, List, Option, Some, IfOk};
ghost use Rattle.fsm_io.specs.Causes.{Rose};
ghost use Rattle.named_networks.specs.Responses.{response_of};
ghost use Rattle.project_sources.specs.Sources.{Said, project_in};
ghost use Rattle.project_store.specs.Loaded.{IsLoadedFrom};
ghost use Rattle.fsm_program.specs.Ends.{Ends, Tells};
ghost use Rattle.fsm_program.specs.Files.{AskedForFiles};
ghost use Rattle.fsm_program.specs.Naming.{asked_in};
ghost use Rattle.fsm_program.specs.Outside.{outside};

use crate::load::{MOST_READ, load};
use crate::saying::{not_loaded, say_told};
use fsm_base::Text;
use fsm_io::{Folder, Sink};
use named_networks::{Question, Told, att, compared};
use project_store::Ready;
use std::alloc::{AllocError, Global};

/// What is asked of names and told at once. They are in Normalization Form C.
#[derive(Drop)]
pub enum Request {
    /// The AT&T text of a name.
    Att {
        /// The name.
        net: Text,
    },
    /// How the languages of two names compare.
    Compared {
        /// What is asked of them.
        question: Question,
        /// The one name.
        first: Text,
        /// The other name.
        second: Text,
    },
}

/// What a project tells of names.
fn told_of(alloc: Global, version: u64, request: &Request, ready: Ready) -> Result<Told, AllocError>
    ensures { (said : Said) → IsLoadedFrom said ready → IfOk result (λ told. Tells version (asked_in request.now) (project_in said) (response_of told)) }
{
    match request {
        Request::Att { net } => att(alloc, ready, version, net.as_str()),
        Request::Compared {
            question,
            first,
            second,
        } => {
            compared(
                alloc,
                ready,
                version,
                *question,
                first.as_str(),
                second.as_str(),
            )
        }
    }
}

/// Writes what the folder's project tells of names.
pub fn tell<F: Folder, O: Sink>(
    alloc: Global,
    version: u64,
    request: Request,
    folder: &mut F,
    output: &mut O,
) -> u8
    ensures ends { (left : Option (List ℕ)) (input_faults : ℕ) → Ends version (Some (asked_in request)) (outside (F.files folder.old) (F.faults folder.old) left input_faults (O.held output.old) (O.faults output.old)) (outside (F.files folder.new) (F.faults folder.new) left input_faults (O.held output.new) (O.faults output.new)) result }
    ensures unwritten { result ≡ 5 → output.new ≡ output.old }
    ensures folder_failed { Rose (F.faults folder.old) (F.faults folder.new) → (result ≡ 3) × (output.new ≡ output.old) }
    ensures read { result ≡ 3 → Rose (F.faults folder.old) (F.faults folder.new) }
    ensures write { result ≡ 4 → Rose (O.faults output.old) (O.faults output.new) }
    ensures asked { AskedForFiles (F.files folder.old) (F.asked folder.old) (F.asked folder.new) }
{
    let ready = match load(alloc, folder, MOST_READ) {
        Ok(ready) => ready,
        Err(error) => return not_loaded(alloc, error, output),
    };
    match told_of(alloc, version, &request, ready) {
        Ok(told) => say_told(told, output),
        Err(_) => 5,
    }
}
