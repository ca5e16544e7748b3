ghost use Rattle.std.specs.Prelude.{◌≡◌, ◌≢◌, ◌⊎◌, ◌<◌, ◌≤◌, ◌∷◌, ℕ, List, None, Some, Ok, Err, length, map};
ghost use Rattle.std.specs.String.{string_bytes};
ghost use Rattle.fsm_io.specs.Buffers.{most_gathered};
ghost use Rattle.fsm_io.specs.Causes.{Rose};
ghost use Rattle.fsm_io.specs.Folders.{Files, IsTold, Told, file_of};
ghost use Rattle.generated_report.specs.Reports.{IsReport};
ghost use Rattle.interlinear.specs.Glosses.{Entry};
ghost use Rattle.interlinear.specs.Replies.{GlossesLine};
ghost use Rattle.editor_session.specs.Endings.{worst};
ghost use Rattle.editor_session.specs.Live.{HasCauses, IsLive};
ghost use Rattle.lookup_answers.specs.declared.direction.Direction.{Direction};
ghost use Rattle.named_networks.specs.Comparisons.{IsCompared};
ghost use Rattle.named_networks.specs.Responses.{Response};
ghost use Rattle.named_networks.specs.Texts.{IsAtt};
ghost use Rattle.named_networks.specs.declared.told.Question.{Question};
ghost use Rattle.pair_lines.specs.Replies.{HasGrammar, RefusesPairs, RepliesToPairs};
ghost use Rattle.project_meaning.specs.Leaves.{Leaf};
ghost use Rattle.project_meaning.specs.Projects.{Project as Meant};
ghost use Rattle.project_meaning.specs.Trees.{Grammar};
ghost use Rattle.project_sources.specs.Edits.{Version as MeantVersion};
ghost use Rattle.project_store.specs.Loaded.{AreNames};
ghost use Rattle.project_store.specs.Projects.{HasTable, Reads};
ghost use Rattle.project_versions.specs.Versions.{Stands};
ghost use Rattle.regex_ast.specs.declared.fault.Fault.{Fault};
ghost use Rattle.reply_meaning.specs.declared.ending.Ending.{Ending};
ghost use Rattle.reply_meaning.specs.Replies.{Replies};
ghost use Rattle.reply_meaning.specs.Transcripts.{HasAnswered, WithoutState, first_version};
ghost use Rattle.reply_text.specs.Projects.{accepted_line, refused_line};
ghost use Rattle.saved_networks.specs.Faults.{file_fault};
ghost use Rattle.saved_networks.specs.Refusals.{refused_line as file_refused_line};
ghost use Rattle.saved_networks.specs.Replies.{RepliesBySaved};
ghost use Rattle.saved_networks.specs.declared.faults.SavedWhy.{SavedWhy};
ghost use Rattle.fsm_program.specs.Beside.{EndsBeside, LaneFailed, LaneReadFailed, LaneSpent, LaneWriteFailed, OfSomeLane};
ghost use Rattle.fsm_program.specs.Ends.{Asked, AskedFor, Declines, HaveFault, Loads, ReadsFolder, ReadsInput, asked_of, for_att, for_check, for_compared, for_gen, for_help, for_look, for_pairs, for_saved, for_serve, glosses_in, response_bytes, response_status, status_of, usage_text, words_in};
ghost use Rattle.fsm_program.specs.Files.{AskedForFiles};
ghost use Rattle.fsm_program.specs.Outside.{IsSaid, outside};
ghost use Rattle.fsm_program.specs.Running.{HasSpent, most_taken};
ghost use Rattle.fsm_program.specs.Saved.{HasSavedText, IsSavedFault};
ghost use Rattle.fsm_program.specs.Serving.{IsFirstVersion};

use crate::alone::run_alone;
use crate::answering::MOST_TAKEN;
use crate::load::{MOST_READ, load_version};
use crate::saying::{not_loaded, status};
use crate::words::is_serve;
use editor_session::Lane;
use fsm_io::{Folder, Sink, Source};
use project_versions::Version;
use std::alloc::Global;
use std::sync::Wait;
use std::thread::Threads;

/// Answers the commands of the input, from this version on, beside the lines of the lanes.
fn served<
    R: Threads + Wait + Sync,
    I: Source + Send,
    O: Sink + Send,
    S: Source + Send + Drop,
    K: Sink + Send + Drop,
>(
    rt: &R,
    alloc: Global,
    version: Version,
    input: &mut I,
    output: &mut O,
    lanes: &mut [Lane<S, K>],
) -> u8
    requires few { length lanes.old ≤ 16 }
    requires first { version.number ≡ 1 }
    ensures served { (loaded : MeantVersion) → Stands version loaded
        → ((ending : Ending) × (endings : List Ending) × (result ≡ status_of (worst (ending ∷ endings)))
        × IsLive loaded most_taken (I.left input.old) (I.left input.new) (O.held output.old) (O.held output.new) ending lanes.old lanes.new endings
        × HasCauses (I.faults input.old) (I.faults input.new) (O.faults output.old) (O.faults output.new) ending) ⊎ (result ≡ 5) }
    ensures status { (result ≢ 1) × (result ≢ 2) × (result ≢ 7) }
    ensures none { result ≡ 5 → (input.new ≡ input.old) × (output.new ≡ output.old) × (lanes.new ≡ lanes.old) }
    ensures count { length lanes.new ≡ length lanes.old }
{
    match editor_session::serve(rt, alloc, MOST_TAKEN, version, input, output, lanes) {
        Ok(ending) => status(ending),
        Err(_) => 5,
    }
}

/// Answers the commands of the input, from the folder's project on, beside the lines of the lanes.
fn serve<
    R: Threads + Wait + Sync,
    F: Folder,
    I: Source + Send,
    O: Sink + Send,
    S: Source + Send + Drop,
    K: Sink + Send + Drop,
>(
    rt: &R,
    alloc: Global,
    folder: &mut F,
    input: &mut I,
    output: &mut O,
    lanes: &mut [Lane<S, K>],
) -> u8
    requires { length lanes.old ≤ 16 }
    ensures ends { EndsBeside first_version (Some for_serve) (outside (F.files folder.old) (F.faults folder.old) (I.left input.old) (I.faults input.old) (O.held output.old) (O.faults output.old)) (outside (F.files folder.new) (F.faults folder.new) (I.left input.new) (I.faults input.new) (O.held output.new) (O.faults output.new)) lanes.old lanes.new result }
    ensures unread { (result ≡ 1) ⊎ (result ≡ 2) ⊎ (result ≡ 5) → input.new ≡ input.old }
    ensures status { result ≢ 7 }
    ensures unwritten { result ≡ 5 → output.new ≡ output.old }
    ensures folder_failed { Rose (F.faults folder.old) (F.faults folder.new) → (result ≡ 3) × (input.new ≡ input.old) × (output.new ≡ output.old) }
    ensures untouched { (result ≡ 1) ⊎ (result ≡ 2) ⊎ (result ≡ 5) → lanes.new ≡ lanes.old }
    ensures read { result ≡ 3 → Rose (F.faults folder.old) (F.faults folder.new) ⊎ Rose (I.faults input.old) (I.faults input.new) ⊎ OfSomeLane LaneReadFailed lanes.old lanes.new }
    ensures write { result ≡ 4 → Rose (O.faults output.old) (O.faults output.new) ⊎ OfSomeLane LaneWriteFailed lanes.old lanes.new }
    ensures asked { AskedForFiles (F.files folder.old) (F.asked folder.old) (F.asked folder.new) }
    ensures count { length lanes.new ≡ length lanes.old }
{
    match load_version(alloc, folder, MOST_READ) {
        Ok(version) => served(rt, alloc, version, input, output, lanes),
        Err(error) => not_loaded(alloc, error, output),
    }
}

/// Does what the words ask for.
fn ended<
    R: Threads + Wait + Sync,
    F: Folder,
    I: Source + Send,
    O: Sink + Send,
    S: Source + Send + Drop,
    K: Sink + Send + Drop,
>(
    rt: &R,
    alloc: Global,
    words: &[String],
    folder: &mut F,
    input: &mut I,
    output: &mut O,
    lanes: &mut [Lane<S, K>],
) -> u8
    requires { length lanes.old ≤ 16 }
    ensures unread { (result ≡ 1) ⊎ (result ≡ 2) ⊎ (result ≡ 5) → input.new ≡ input.old }
    ensures unread_declined { result ≡ 7 → input.new ≡ input.old }
    ensures lines_read { ((what : Asked) → asked_of (map string_bytes words.now) ≡ Some what → ¬ (ReadsInput what)) → input.new ≡ input.old }
    ensures unwritten { result ≡ 5 → output.new ≡ output.old }
    ensures folder_failed { F.faults folder.old < F.faults folder.new → (result ≡ 3) × (input.new ≡ input.old) × (output.new ≡ output.old) }
    ensures unasked { ((what : Asked) → asked_of (map string_bytes words.now) ≡ Some what → ¬ (ReadsFolder what)) → folder.new ≡ folder.old }
    ensures untouched { (result ≡ 1) ⊎ (result ≡ 2) ⊎ (result ≡ 5) → lanes.new ≡ lanes.old }
    ensures read { result ≡ 3 → Rose (F.faults folder.old) (F.faults folder.new) ⊎ Rose (I.faults input.old) (I.faults input.new) ⊎ OfSomeLane LaneReadFailed lanes.old lanes.new }
    ensures write { result ≡ 4 → Rose (O.faults output.old) (O.faults output.new) ⊎ OfSomeLane LaneWriteFailed lanes.old lanes.new }
    ensures asked { AskedFor (asked_of (map string_bytes words.now)) (F.files folder.old) (F.asked folder.old) (F.asked folder.new) }
    ensures count { length lanes.new ≡ length lanes.old }
    ensures ends { EndsBeside first_version (asked_of (map string_bytes words.now)) (outside (F.files folder.old) (F.faults folder.old) (I.left input.old) (I.faults input.old) (O.held output.old) (O.faults output.old)) (outside (F.files folder.new) (F.faults folder.new) (I.left input.new) (I.faults input.new) (O.held output.new) (O.faults output.new)) lanes.old lanes.new result }
{
    if is_serve(words) {
        serve(rt, alloc, folder, input, output, lanes)
    } else {
        run_alone(rt, alloc, words, folder, input, output)
    }
}

/// Runs the program: `words` are its arguments, whose first is the command. DIR is for the caller, who hands over the
/// folder of that name.
///
/// - `check DIR` reads the folder's project and writes `ok 1 rebuilt` with its names.
/// - `up DIR NET` looks up each line of the input in the name NET of the folder's project, and writes
///   the reply with its upper words to the output.
/// - `down DIR NET` does the same with its lower words.
/// - `gloss DIR NET` looks up the words of each line of the input as `up` does, and writes them with their analyses and
///   glosses in columns.
/// - `serve DIR` writes `ok 1 rebuilt` with the names of the folder's project, and answers the commands of the input, which look up
///   words and edit the project's files. Meanwhile the lines of each lane are answered, in a thread of its own, at versions that
///   these edits make: those up to its line `---` at a version that is no older than the one before, and those behind it, when
///   the commands are answered, at the last one. It may wait, as an editor and its seats do (publish_board). Other words leave the
///   lanes as they are, and always return.
/// - `gen N` makes a project of N stems and a text, and writes what is answered of them in six lines.
/// - `att DIR NET` writes the AT&T text of the name NET of the folder's project.
/// - `attup DIR FILE` looks up each line of the input in the file FILE of the folder, an AT&T text, and writes the reply with its upper words
///   to the output, over the symbols of the text. Of the folder this file alone is read, and no project.
/// - `pairs DIR NET` takes each line of the input as a string of pairs, and writes whether it keeps the rules of the name NET, which a twolc
///   file defines, or which of them it breaks first, and where.
/// - `equal DIR A B` writes whether the languages of the names A and B have the same words, and else a shortest word that is in one of them
///   alone. `within DIR A B` does so for words of A that aren't in B.
/// - `help`, `-h` and `--help` write these forms.
///
/// Returns the exit status:
/// - 0: what was asked for is written. Every line of the input has its reply, or every command up to `end`, and every line of each
///   lane.
/// - 1: the words are in no form. The forms were written to the output.
/// - 2: the project has a fault, or the file of `attup`. The first fault was written to the output.
/// - 3: a file of the folder, the input or the input of a lane couldn't be read. Every line that was read whole has its
///   reply. Where it was the folder, nothing was read of the input or a lane, and nothing written.
/// - 4: the output or the output of a lane couldn't be written. This goes before 3, and 3 before 6.
/// - 5: there was no memory for the project. Nothing was read of the input or a lane, and nothing written.
/// - 6: 2^40 bytes were read of an input that hasn't ended. Every line that was read whole has its reply.
/// - 7: a name isn't there, or isn't what is asked for, or its symbols can't stand in an AT&T text. The line that says so was written to the
///   output, and nothing was read of the input.
///
/// A lane's failure stops that lane alone, and that of the input or output the commands alone.
pub fn run<
    R: Threads + Wait + Sync,
    F: Folder,
    I: Source + Send,
    O: Sink + Send,
    S: Source + Send + Drop,
    K: Sink + Send + Drop,
>(
    rt: &R,
    alloc: Global,
    words: &[String],
    folder: &mut F,
    input: &mut I,
    output: &mut O,
    lanes: &mut [Lane<S, K>],
) -> u8
    requires { length lanes.old ≤ 16 }
    ensures ends { EndsBeside first_version (asked_of (map string_bytes words.now)) (outside (F.files folder.old) (F.faults folder.old) (I.left input.old) (I.faults input.old) (O.held output.old) (O.faults output.old)) (outside (F.files folder.new) (F.faults folder.new) (I.left input.new) (I.faults input.new) (O.held output.new) (O.faults output.new)) lanes.old lanes.new result }
    ensures usage { result ≡ 1 → asked_of (map string_bytes words.now) ≡ None }
    ensures no_words { asked_of (map string_bytes words.now) ≡ None → IsSaid (O.held output.old) (O.held output.new) usage_text 1 result }
    ensures helped { asked_of (map string_bytes words.now) ≡ Some for_help → IsSaid (O.held output.old) (O.held output.new) usage_text 0 result }
    ensures fault { result ≡ 2 → HaveFault (asked_of (map string_bytes words.now)) (F.files folder.old) × ¬ (Rose (F.faults folder.old) (F.faults folder.new)) }
    ensures refused { (what : Asked) (fault : Fault) → asked_of (map string_bytes words.now) ≡ Some what → Loads what → IsTold (F.files folder.old) (λ files. Reads files (Err fault)) → ¬ (Rose (F.faults folder.old) (F.faults folder.new))
        → IsSaid (O.held output.old) (O.held output.new) (refused_line fault) 2 result ⊎ (result ≡ 5) }
    ensures checked { (project : Meant) → asked_of (map string_bytes words.now) ≡ Some for_check → IsTold (F.files folder.old) (λ files. Reads files (Ok project)) → ¬ (Rose (F.faults folder.old) (F.faults folder.new))
        → ((names : List (List ℕ)) × AreNames project names × IsSaid (O.held output.old) (O.held output.new) (accepted_line first_version names) 0 result) ⊎ (result ≡ 5) }
    ensures answered { (direction : Direction) (net : List ℕ) (project : Meant) → asked_of (map string_bytes words.now) ≡ Some (for_look (words_in direction net)) → IsTold (F.files folder.old) (λ files. Reads files (Ok project)) → ¬ (Rose (F.faults folder.old) (F.faults folder.new))
        → ((ending : Ending) × (result ≡ status_of ending) × HasAnswered (WithoutState (Replies project direction first_version net)) tt most_taken most_gathered (I.left input.old) (I.left input.new) (O.held output.old) (O.held output.new) ending) ⊎ (result ≡ 5) }
    ensures glossed { (net : List ℕ) (project : Meant) (table : List Entry) → asked_of (map string_bytes words.now) ≡ Some (for_look (glosses_in net)) → IsTold (F.files folder.old) (λ files. Reads files (Ok project)) → IsTold (F.files folder.old) (λ files. HasTable files table) → ¬ (Rose (F.faults folder.old) (F.faults folder.new))
        → ((ending : Ending) × (result ≡ status_of ending) × HasAnswered (WithoutState (GlossesLine project table first_version net)) tt most_taken most_gathered (I.left input.old) (I.left input.new) (O.held output.old) (O.held output.new) ending) ⊎ (result ≡ 5) }
    ensures att { (net : List ℕ) (project : Meant) → asked_of (map string_bytes words.now) ≡ Some (for_att net) → IsTold (F.files folder.old) (λ files. Reads files (Ok project)) → ¬ (Rose (F.faults folder.old) (F.faults folder.new))
        → ((told : Response) × IsAtt project first_version net told × IsSaid (O.held output.old) (O.held output.new) (response_bytes told) (response_status told) result) ⊎ (result ≡ 5) }
    ensures compared { (question : Question) (first second : List ℕ) (project : Meant) → asked_of (map string_bytes words.now) ≡ Some (for_compared question first second) → IsTold (F.files folder.old) (λ files. Reads files (Ok project)) → ¬ (Rose (F.faults folder.old) (F.faults folder.new))
        → ((told : Response) × IsCompared project first_version question first second told × IsSaid (O.held output.old) (O.held output.new) (response_bytes told) (response_status told) result) ⊎ (result ≡ 5) }
    ensures paired { (net : List ℕ) (project : Meant) → asked_of (map string_bytes words.now) ≡ Some (for_pairs net) → IsTold (F.files folder.old) (λ files. Reads files (Ok project)) → ¬ (Rose (F.faults folder.old) (F.faults folder.new))
        → ((grammar : Grammar Leaf) × HasGrammar project net grammar × ((ending : Ending) × (result ≡ status_of ending) × HasAnswered (WithoutState (RepliesToPairs project first_version net)) tt most_taken most_gathered (I.left input.old) (I.left input.new) (O.held output.old) (O.held output.new) ending))
        ⊎ ((line : List ℕ) × RefusesPairs project first_version net line × IsSaid (O.held output.old) (O.held output.new) line 7 result) ⊎ (result ≡ 5) }
    ensures saved { (file : List ℕ) (files : Files) → asked_of (map string_bytes words.now) ≡ Some (for_saved file) → F.files folder.old ≡ Some files → ¬ (Rose (F.faults folder.old) (F.faults folder.new))
        → ((text : List ℕ) × HasSavedText file text files × ((ending : Ending) × (result ≡ status_of ending) × HasAnswered (WithoutState (RepliesBySaved text first_version)) tt most_taken most_gathered (I.left input.old) (I.left input.new) (O.held output.old) (O.held output.new) ending))
        ⊎ ((line : ℕ) × (why : SavedWhy) × IsSavedFault file line why files × IsSaid (O.held output.old) (O.held output.new) (file_refused_line file line why) 2 result) ⊎ (result ≡ 5) }
    ensures declined { result ≡ 7 → (what : Asked) × (project : Meant) × (asked_of (map string_bytes words.now) ≡ Some what) × Told (F.files folder.old) (λ files. Reads files (Ok project)) × Declines what project × ¬ (Rose (F.faults folder.old) (F.faults folder.new)) }
    ensures generated { (stems : ℕ) → asked_of (map string_bytes words.now) ≡ Some (for_gen stems) → ((report : List ℕ) × IsReport stems report × IsSaid (O.held output.old) (O.held output.new) report 0 result) ⊎ (result ≡ 5) }
    ensures served { (project : Meant) → asked_of (map string_bytes words.now) ≡ Some for_serve → IsTold (F.files folder.old) (λ files. Reads files (Ok project)) → ¬ (Rose (F.faults folder.old) (F.faults folder.new))
        → ((loaded : MeantVersion) × (loaded.project ≡ project) × (Told (F.files folder.old) (IsFirstVersion loaded)
        × ((ending : Ending) × (endings : List Ending) × (result ≡ status_of (worst (ending ∷ endings)))
        × IsLive loaded most_taken (I.left input.old) (I.left input.new) (O.held output.old) (O.held output.new) ending lanes.old lanes.new endings
        × HasCauses (I.faults input.old) (I.faults input.new) (O.faults output.old) (O.faults output.new) ending))) ⊎ (result ≡ 5) }
    ensures complete { (what : Asked) (project : Meant) → asked_of (map string_bytes words.now) ≡ Some what → Loads what → IsTold (F.files folder.old) (λ files. Reads files (Ok project)) → ¬ (Rose (F.faults folder.old) (F.faults folder.new))
        → ¬ (Rose (I.faults input.old) (I.faults input.new)) → ¬ (Rose (O.faults output.old) (O.faults output.new)) → ¬ (OfSomeLane LaneFailed lanes.old lanes.new) → result ≢ 6 → (result ≡ 0) ⊎ (result ≡ 5) ⊎ ((result ≡ 7) × Declines what project) }
    ensures complete_saved { (file : List ℕ) (files : Files) → asked_of (map string_bytes words.now) ≡ Some (for_saved file) → F.files folder.old ≡ Some files → file_fault (file_of file files) ≡ None → ¬ (Rose (F.faults folder.old) (F.faults folder.new))
        → ¬ (Rose (I.faults input.old) (I.faults input.new)) → ¬ (Rose (O.faults output.old) (O.faults output.new)) → ¬ (OfSomeLane LaneFailed lanes.old lanes.new) → result ≢ 6 → (result ≡ 0) ⊎ (result ≡ 5) }
    ensures spent { result ≡ 6 → HasSpent (I.left input.old) (I.left input.new) ⊎ OfSomeLane LaneSpent lanes.old lanes.new }
    ensures unread { (result ≡ 1) ⊎ (result ≡ 2) ⊎ (result ≡ 5) → input.new ≡ input.old }
    ensures unread_declined { result ≡ 7 → input.new ≡ input.old }
    ensures lines_read { ((what : Asked) → asked_of (map string_bytes words.now) ≡ Some what → ¬ (ReadsInput what)) → input.new ≡ input.old }
    ensures unwritten { result ≡ 5 → output.new ≡ output.old }
    ensures folder_failed { F.faults folder.old < F.faults folder.new → (result ≡ 3) × (input.new ≡ input.old) × (output.new ≡ output.old) }
    ensures unasked { ((what : Asked) → asked_of (map string_bytes words.now) ≡ Some what → ¬ (ReadsFolder what)) → folder.new ≡ folder.old }
    ensures untouched { (result ≡ 1) ⊎ (result ≡ 2) ⊎ (result ≡ 5) → lanes.new ≡ lanes.old }
    ensures unserved { asked_of (map string_bytes words.now) ≢ Some for_serve → lanes.new ≡ lanes.old }
    ensures unreached { Rose (F.faults folder.old) (F.faults folder.new) → lanes.new ≡ lanes.old }
    ensures count { length lanes.new ≡ length lanes.old }
    ensures read { result ≡ 3 → Rose (F.faults folder.old) (F.faults folder.new) ⊎ Rose (I.faults input.old) (I.faults input.new) ⊎ OfSomeLane LaneReadFailed lanes.old lanes.new }
    ensures write { result ≡ 4 → Rose (O.faults output.old) (O.faults output.new) ⊎ OfSomeLane LaneWriteFailed lanes.old lanes.new }
    ensures asked { AskedFor (asked_of (map string_bytes words.now)) (F.files folder.old) (F.asked folder.old) (F.asked folder.new) }
{
    ended(rt, alloc, words, folder, input, output, lanes)
}
