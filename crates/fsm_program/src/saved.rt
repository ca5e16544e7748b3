ghost use Rattle.std.specs.Prelude.{◌≡◌, ◌≤◌, ◌⊎◌, List, None, Some, ℕ, IfErr, IfOk, OnOk};
ghost use Rattle.fsm_io.specs.Causes.{Rose};
ghost use Rattle.fsm_io.specs.Folders.{Finds, HasAsked, Told};
ghost use Rattle.saved_networks.specs.Faults.{IsWhyRefused, file_fault};
ghost use Rattle.saved_networks.specs.Networks.{IsSavedFrom};
ghost use Rattle.fsm_program.specs.Ends.{Ends, for_saved};
ghost use Rattle.fsm_program.specs.Outside.{outside};
ghost use Rattle.fsm_program.specs.Saved.{AskedForSaved, IsFindError, content_of};

use crate::answering::answered;
use crate::look_up::{LookUp, Subject};
use crate::saying::not_opened;
use fsm_base::Text;
use fsm_io::{Folder, FolderError, Found, Sink, Source, rose};
use saved_networks::{SavedError, SavedNetwork, SavedWhy, open};
use std::alloc::Global;
use std::thread::Threads;

/// The most bytes that are read of a file of AT&T text: one more than it may have.
const MOST_SAVED: usize = 67_108_865;

/// What the folder has of a file, `most` bytes at most. It has failed too where its count of faults rose and the file was read, or there
/// was no memory.
fn find<F: Folder>(
    alloc: Global,
    folder: &mut F,
    file: &str,
    most: usize,
) -> Result<Found, FolderError>
    ensures found { IfOk result (λ found. Told (F.files folder.old) (Finds file.now most found)) }
    ensures whole { OnOk result (¬ (Rose (F.faults folder.old) (F.faults folder.new))) }
    ensures error { IfErr result (λ error. IsFindError error (F.faults folder.old) (F.faults folder.new)) }
    ensures asked { HasAsked (F.asked folder.old) (F.asked folder.new) file.now most result }
    ensures later { F.faults folder.old ≤ F.faults folder.new }
{
    let before = folder.faults();
    let found = folder.read(alloc, file, most);
    if rose(before, folder.faults()) {
        return Err(FolderError::Failed);
    }
    found
}

/// The network that was found of a file of AT&T text, or why there is none. What was found is let go.
fn network_of(alloc: Global, found: Found) -> Result<SavedNetwork, SavedError>
    ensures saved { IfOk result (λ saved. (bytes : List ℕ) × (content_of found ≡ Some bytes) × IsSavedFrom bytes saved) }
    ensures faultless { OnOk result (file_fault (content_of found) ≡ None) }
    ensures error { IfErr result (IsWhyRefused (file_fault (content_of found))) }
{
    match found {
        Found::Bytes(bytes) => open(alloc, &bytes),
        Found::Missing => Err(SavedError::Refused {
            line: 0,
            why: SavedWhy::NoFile,
        }),
    }
}

/// Answers the lines of the input, words whose upper words are told, in a file of AT&T text. Of the folder this file alone is read.
pub fn look_up_saved<R: Threads + Sync, F: Folder, I: Source, O: Sink>(
    rt: &R,
    alloc: Global,
    version: u64,
    file: Text,
    folder: &mut F,
    input: &mut I,
    output: &mut O,
) -> u8
    ensures ends { Ends version (Some (for_saved file)) (outside (F.files folder.old) (F.faults folder.old) (I.left input.old) (I.faults input.old) (O.held output.old) (O.faults output.old)) (outside (F.files folder.new) (F.faults folder.new) (I.left input.new) (I.faults input.new) (O.held output.new) (O.faults output.new)) result }
    ensures unread { (result ≡ 1) ⊎ (result ≡ 2) ⊎ (result ≡ 5) → input.new ≡ input.old }
    ensures unread_declined { result ≡ 7 → input.new ≡ input.old }
    ensures unwritten { result ≡ 5 → output.new ≡ output.old }
    ensures folder_failed { Rose (F.faults folder.old) (F.faults folder.new) → (result ≡ 3) × (input.new ≡ input.old) × (output.new ≡ output.old) }
    ensures read { result ≡ 3 → Rose (F.faults folder.old) (F.faults folder.new) ⊎ Rose (I.faults input.old) (I.faults input.new) }
    ensures write { result ≡ 4 → Rose (O.faults output.old) (O.faults output.new) }
    ensures asked { AskedForSaved file (F.asked folder.old) (F.asked folder.new) }
{
    let found = match find(alloc, folder, file.as_str(), MOST_SAVED) {
        Ok(found) => found,
        Err(FolderError::Failed) => return 3,
        Err(FolderError::Memory(_)) => return 5,
    };
    match network_of(alloc, found) {
        Ok(network) => {
            let look_up = LookUp {
                subject: Subject::Saved(network),
                version,
            };
            answered(rt, alloc, look_up, input, output)
        }
        Err(error) => not_opened(alloc, file.as_str(), error, output),
    }
}
