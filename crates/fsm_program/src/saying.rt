ghost use Rattle.std.specs.Prelude.{◌≡◌, ◌≢◌, ◌⊎◌, ℕ, List, IfOk};
ghost use Rattle.fsm_io.specs.Causes.{Rose};
ghost use Rattle.project_sources.specs.Sources.{Said, project_in};
ghost use Rattle.project_store.specs.Loaded.{AreNames, IsLoadedFrom};
ghost use Rattle.reply_text.specs.Projects.{accepted_line};
ghost use Rattle.named_networks.specs.Responses.{response_of};
ghost use Rattle.fsm_program.specs.Ends.{IsNotLoaded, response_bytes, response_status, status_of, usage_text};
ghost use Rattle.fsm_program.specs.Outside.{IsSaid};
ghost use Rattle.fsm_program.specs.Saved.{IsNotOpened};

use crate::load::LoadError;
use crate::words::WordsError;
use fsm_io::{Failed, Sink, write_all};
use named_networks::Told;
use project_store::Project;
use reply_meaning::Ending;
use reply_text::{accepted, refused};
use saved_networks::SavedError;
use std::alloc::{AllocError, Global};

/// What is written for help, and where the words are in no form.
pub const USAGE: &[u8] =
    b"check DIR\nup DIR NET\ndown DIR NET\ngloss DIR NET\nserve DIR\ngen N\natt DIR NET\nattup DIR FILE\npairs DIR NET\nequal DIR A B\nwithin DIR A B\nhelp\n";

/// Writes a text that ends the run with this status, or with 4 where the write fails.
pub fn said<O: Sink>(output: &mut O, text: &[u8], status: u8) -> u8
    requires { status ≢ 4 }
    ensures said { IsSaid (O.held output.old) (O.held output.new) text.now status result }
    ensures status { (result ≡ status) ⊎ (result ≡ 4) }
    ensures write { result ≡ 4 → Rose (O.faults output.old) (O.faults output.new) }
{
    match write_all(output, text) {
        Ok(()) => status,
        Err(Failed) => 4,
    }
}

/// The status of a run that ended so.
pub fn status(ending: Ending) -> u8
    ensures { result ≡ status_of ending }
{
    match ending {
        Ending::Finished => 0,
        Ending::WriteFailed => 4,
        Ending::ReadFailed => 3,
        Ending::Spent => 6,
    }
}

/// Ends a run whose words ask for nothing.
pub fn not_read<O: Sink>(error: WordsError, output: &mut O) -> u8
    ensures said { error ≡ WordsError.Usage → IsSaid (O.held output.old) (O.held output.new) usage_text 1 result }
    ensures none { error ≢ WordsError.Usage → (result ≡ 5) × (output.new ≡ output.old) }
    ensures status { (result ≡ 1) ⊎ (result ≡ 4) ⊎ (result ≡ 5) }
    ensures unwritten { result ≡ 5 → output.new ≡ output.old }
    ensures write { result ≡ 4 → Rose (O.faults output.old) (O.faults output.new) }
{
    match error {
        WordsError::Usage => said(output, USAGE, 1),
        WordsError::Memory(_) => 5,
    }
}

/// Ends a run whose project isn't loaded.
pub fn not_loaded<O: Sink>(alloc: Global, error: LoadError, output: &mut O) -> u8
    ensures ends { IsNotLoaded error (O.held output.old) (O.held output.new) result }
    ensures status { (result ≡ 2) ⊎ (result ≡ 3) ⊎ (result ≡ 4) ⊎ (result ≡ 5) }
    ensures unwritten { result ≡ 5 → output.new ≡ output.old }
    ensures failed { result ≡ 3 → error ≡ LoadError.Failed }
    ensures folder_failed { error ≡ LoadError.Failed → (result ≡ 3) × (output.new ≡ output.old) }
    ensures write { result ≡ 4 → Rose (O.faults output.old) (O.faults output.new) }
{
    match error {
        LoadError::Failed => 3,
        LoadError::Memory(_) => 5,
        LoadError::Refused(fault) => match refused(alloc, &fault) {
            Ok(text) => said(output, &text, 2),
            Err(_) => 5,
        },
    }
}

/// Ends a run whose file of AT&T text isn't opened.
pub fn not_opened<O: Sink>(alloc: Global, file: &str, error: SavedError, output: &mut O) -> u8
    ensures ends { IsNotOpened error file.now (O.held output.old) (O.held output.new) result }
    ensures status { (result ≡ 2) ⊎ (result ≡ 4) ⊎ (result ≡ 5) }
    ensures unwritten { result ≡ 5 → output.new ≡ output.old }
    ensures write { result ≡ 4 → Rose (O.faults output.old) (O.faults output.new) }
{
    match error {
        SavedError::Memory(_) => 5,
        SavedError::Refused { line, why } => {
            match saved_networks::refused(alloc, file, line, why) {
                Ok(text) => said(output, &text, 2),
                Err(_) => 5,
            }
        }
    }
}

/// Writes what is told of names, with the status 0, or 7 where that is a refusal.
pub fn say_told<O: Sink>(told: Told, output: &mut O) -> u8
    ensures said { IsSaid (O.held output.old) (O.held output.new) (response_bytes (response_of told)) (response_status (response_of told)) result }
    ensures status { (result ≡ 0) ⊎ (result ≡ 4) ⊎ (result ≡ 7) }
    ensures write { result ≡ 4 → Rose (O.faults output.old) (O.faults output.new) }
{
    match told {
        Told::Answer(bytes) => said(output, &bytes, 0),
        Told::Refusal(line) => said(output, &line, 7),
    }
}

/// The line of a project without fault.
fn names_line(alloc: Global, version: u64, project: &Project) -> Result<Vec<u8>, AllocError>
    ensures { (said : Said) → IsLoadedFrom said project.now → IfOk result (λ text. (names : List (List ℕ)) × AreNames (project_in said) names × (text.items ≡ accepted_line version names)) }
{
    let names = project.names(alloc)?;
    accepted(alloc, version, &names)
}

/// Writes the names of a project.
pub fn say_names<O: Sink>(alloc: Global, version: u64, project: &Project, output: &mut O) -> u8
    ensures said { (said : Said) → IsLoadedFrom said project.now → ((names : List (List ℕ)) × AreNames (project_in said) names × IsSaid (O.held output.old) (O.held output.new) (accepted_line version names) 0 result) ⊎ (result ≡ 5) }
    ensures status { (result ≡ 0) ⊎ (result ≡ 4) ⊎ (result ≡ 5) }
    ensures unwritten { result ≡ 5 → output.new ≡ output.old }
    ensures write { result ≡ 4 → Rose (O.faults output.old) (O.faults output.new) }
{
    match names_line(alloc, version, project) {
        Ok(text) => said(output, &text, 0),
        Err(_) => 5,
    }
}
