ghost use Rattle.std.specs.Prelude.{◌≡◌, ◌≢◌, ◌⊎◌, ◌<◌, ◌≤◌, ℕ, List, Option, None, Some, Ok, Err, map};
ghost use Rattle.std.specs.String.{string_bytes};
ghost use Rattle.fsm_io.specs.Buffers.{most_gathered};
ghost use Rattle.fsm_io.specs.Causes.{Rose};
ghost use Rattle.fsm_io.specs.Folders.{Files, IsTold, Told, file_of};
ghost use Rattle.generated_report.specs.Generated.{most_stems};
ghost use Rattle.generated_report.specs.Reports.{IsReport};
ghost use Rattle.interlinear.specs.Glosses.{Entry};
ghost use Rattle.interlinear.specs.Replies.{GlossesLine};
ghost use Rattle.named_networks.specs.Comparisons.{IsCompared};
ghost use Rattle.named_networks.specs.Responses.{Response};
ghost use Rattle.named_networks.specs.Texts.{IsAtt};
ghost use Rattle.named_networks.specs.declared.told.Question.{Question};
ghost use Rattle.pair_lines.specs.Replies.{HasGrammar, RefusesPairs, RepliesToPairs};
ghost use Rattle.project_meaning.specs.Leaves.{Leaf};
ghost use Rattle.project_meaning.specs.Projects.{Project as Meant};
ghost use Rattle.project_meaning.specs.Trees.{Grammar};
ghost use Rattle.project_store.specs.Loaded.{AreNames};
ghost use Rattle.project_store.specs.Projects.{HasTable, Reads};
ghost use Rattle.regex_ast.specs.declared.fault.Fault.{Fault};
ghost use Rattle.reply_meaning.specs.declared.ending.Ending.{Ending};
ghost use Rattle.reply_meaning.specs.Replies.{Replies};
ghost use Rattle.reply_meaning.specs.Transcripts.{HasAnswered, WithoutState, first_version};
ghost use Rattle.reply_text.specs.Projects.{accepted_line, refused_line};
ghost use Rattle.saved_networks.specs.Faults.{file_fault};
ghost use Rattle.saved_networks.specs.Refusals.{refused_line as file_refused_line};
ghost use Rattle.saved_networks.specs.Replies.{RepliesBySaved};
ghost use Rattle.saved_networks.specs.declared.faults.SavedWhy.{SavedWhy};
ghost use Rattle.fsm_program.specs.Ends.{Asked, AskedFor, Declines, Ends, HaveFault, Loads, ReadsFolder, ReadsInput, asked_by, asked_of, for_att, for_check, for_compared, for_gen, for_help, for_look, for_pairs, for_saved, for_serve, glosses_in, response_bytes, response_status, status_of, usage_text, words_in};
ghost use Rattle.fsm_program.specs.Files.{AskedForFiles};
ghost use Rattle.fsm_program.specs.Outside.{IsSaid, outside};
ghost use Rattle.fsm_program.specs.Running.{HasSpent, most_taken};
ghost use Rattle.fsm_program.specs.Saved.{HasSavedText, IsSavedFault};

use crate::answering::answered;
use crate::load::{MOST_READ, load};
use crate::look_up::{LookUp, Subject, Task};
use crate::naming::{Request, tell};
use crate::pairing::pair;
use crate::saved::look_up_saved;
use crate::saying::{USAGE, not_loaded, not_read, said, say_names};
use crate::words::{Command, read_words};
use fsm_base::Text;
use fsm_io::{Folder, Sink, Source};
use generated_report::report;
use lookup_answers::Direction;
use project_store::Network;
use std::alloc::Global;
use std::thread::Threads;

/// The number of the version that is loaded.
const FIRST_VERSION: u64 = 1;

/// Checks the folder's project.
fn check<F: Folder, O: Sink>(alloc: Global, version: u64, folder: &mut F, output: &mut O) -> u8
    ensures ends { (left : Option (List ℕ)) (input_faults : ℕ) → Ends version (Some for_check) (outside (F.files folder.old) (F.faults folder.old) left input_faults (O.held output.old) (O.faults output.old)) (outside (F.files folder.new) (F.faults folder.new) left input_faults (O.held output.new) (O.faults output.new)) result }
    ensures unwritten { result ≡ 5 → output.new ≡ output.old }
    ensures folder_failed { Rose (F.faults folder.old) (F.faults folder.new) → (result ≡ 3) × (output.new ≡ output.old) }
    ensures read { result ≡ 3 → Rose (F.faults folder.old) (F.faults folder.new) }
    ensures write { result ≡ 4 → Rose (O.faults output.old) (O.faults output.new) }
    ensures asked { AskedForFiles (F.files folder.old) (F.asked folder.old) (F.asked folder.new) }
{
    match load(alloc, folder, MOST_READ) {
        Ok(ready) => say_names(alloc, version, ready.project(), output),
        Err(error) => not_loaded(alloc, error, output),
    }
}

/// Answers the lines of the input in the folder's project.
fn look_up<R: Threads + Sync, F: Folder, I: Source, O: Sink>(
    rt: &R,
    alloc: Global,
    version: u64,
    task: Task,
    net: Text,
    folder: &mut F,
    input: &mut I,
    output: &mut O,
) -> u8
    ensures ends { Ends version (Some (for_look (record { task = task; net = net }))) (outside (F.files folder.old) (F.faults folder.old) (I.left input.old) (I.faults input.old) (O.held output.old) (O.faults output.old)) (outside (F.files folder.new) (F.faults folder.new) (I.left input.new) (I.faults input.new) (O.held output.new) (O.faults output.new)) result }
    ensures unread { (result ≡ 1) ⊎ (result ≡ 2) ⊎ (result ≡ 5) → input.new ≡ input.old }
    ensures unread_declined { result ≡ 7 → input.new ≡ input.old }
    ensures unwritten { result ≡ 5 → output.new ≡ output.old }
    ensures folder_failed { Rose (F.faults folder.old) (F.faults folder.new) → (result ≡ 3) × (input.new ≡ input.old) × (output.new ≡ output.old) }
    ensures read { result ≡ 3 → Rose (F.faults folder.old) (F.faults folder.new) ⊎ Rose (I.faults input.old) (I.faults input.new) }
    ensures write { result ≡ 4 → Rose (O.faults output.old) (O.faults output.new) }
    ensures asked { AskedForFiles (F.files folder.old) (F.asked folder.old) (F.asked folder.new) }
{
    let ready = match load(alloc, folder, MOST_READ) {
        Ok(ready) => ready,
        Err(error) => return not_loaded(alloc, error, output),
    };
    match Network::of(alloc, ready, net) {
        Ok(network) => {
            let look_up = LookUp {
                subject: Subject::Named { network, task },
                version,
            };
            answered(rt, alloc, look_up, input, output)
        }
        Err(_) => 5,
    }
}

/// Makes a project of so many stems, and writes what is answered of it.
fn generate<R: Threads + Sync, O: Sink>(rt: &R, alloc: Global, stems: u32, output: &mut O) -> u8
    requires some { 1 ≤ stems }
    requires few { stems ≤ most_stems }
    ensures generated { ((report : List ℕ) × IsReport stems report × IsSaid (O.held output.old) (O.held output.new) report 0 result) ⊎ (result ≡ 5) }
    ensures status { (result ≡ 0) ⊎ (result ≡ 4) ⊎ (result ≡ 5) }
    ensures unwritten { result ≡ 5 → output.new ≡ output.old }
    ensures write { result ≡ 4 → Rose (O.faults output.old) (O.faults output.new) }
{
    match report(rt, alloc, stems) {
        Ok(report) => said(output, &report, 0),
        // A project that is made has no fault, as rows show, so there was no memory.
        Err(_) => 5,
    }
}

/// Does what a command asks for that isn't `serve`.
fn obey<R: Threads + Sync, F: Folder, I: Source, O: Sink>(
    rt: &R,
    alloc: Global,
    version: u64,
    command: Command,
    folder: &mut F,
    input: &mut I,
    output: &mut O,
) -> u8
    requires alone { asked_by command ≢ for_serve }
    requires made { (stems : ℕ) → asked_by command ≡ for_gen stems → (1 ≤ stems) × (stems ≤ most_stems) }
    ensures ends { Ends version (Some (asked_by command)) (outside (F.files folder.old) (F.faults folder.old) (I.left input.old) (I.faults input.old) (O.held output.old) (O.faults output.old)) (outside (F.files folder.new) (F.faults folder.new) (I.left input.new) (I.faults input.new) (O.held output.new) (O.faults output.new)) result }
    ensures unread { (result ≡ 1) ⊎ (result ≡ 2) ⊎ (result ≡ 5) → input.new ≡ input.old }
    ensures unread_declined { result ≡ 7 → input.new ≡ input.old }
    ensures lines_read { ¬ (ReadsInput (asked_by command)) → input.new ≡ input.old }
    ensures unwritten { result ≡ 5 → output.new ≡ output.old }
    ensures folder_failed { F.faults folder.old < F.faults folder.new → (result ≡ 3) × (input.new ≡ input.old) × (output.new ≡ output.old) }
    ensures unasked { ¬ (ReadsFolder (asked_by command)) → folder.new ≡ folder.old }
    ensures read { result ≡ 3 → Rose (F.faults folder.old) (F.faults folder.new) ⊎ Rose (I.faults input.old) (I.faults input.new) }
    ensures write { result ≡ 4 → Rose (O.faults output.old) (O.faults output.new) }
    ensures asked { AskedFor (Some (asked_by command)) (F.files folder.old) (F.asked folder.old) (F.asked folder.new) }
{
    match command {
        Command::Check => check(alloc, version, folder, output),
        Command::Up { net } => {
            let task = Task::Words(Direction::Up);
            look_up(rt, alloc, version, task, net, folder, input, output)
        }
        Command::Down { net } => {
            let task = Task::Words(Direction::Down);
            look_up(rt, alloc, version, task, net, folder, input, output)
        }
        Command::Gloss { net } => {
            look_up(
                rt,
                alloc,
                version,
                Task::Glosses,
                net,
                folder,
                input,
                output,
            )
        }
        Command::Serve => unreachable!(),
        Command::Gen { n } => generate(rt, alloc, n, output),
        Command::Att { net } => tell(alloc, version, Request::Att { net }, folder, output),
        Command::AttUp { file } => look_up_saved(rt, alloc, version, file, folder, input, output),
        Command::Pairs { net } => pair(rt, alloc, version, net, folder, input, output),
        Command::Compare {
            question,
            first,
            second,
        } => {
            let request = Request::Compared {
                question,
                first,
                second,
            };
            tell(alloc, version, request, folder, output)
        }
        Command::Help => said(output, USAGE, 0),
    }
}

/// Does what the words ask for that aren't `serve DIR`.
fn ended<R: Threads + Sync, F: Folder, I: Source, O: Sink>(
    rt: &R,
    alloc: Global,
    words: &[String],
    folder: &mut F,
    input: &mut I,
    output: &mut O,
) -> u8
    requires { asked_of (map string_bytes words.now) ≢ Some for_serve }
    ensures ends { Ends first_version (asked_of (map string_bytes words.now)) (outside (F.files folder.old) (F.faults folder.old) (I.left input.old) (I.faults input.old) (O.held output.old) (O.faults output.old)) (outside (F.files folder.new) (F.faults folder.new) (I.left input.new) (I.faults input.new) (O.held output.new) (O.faults output.new)) result }
    ensures unread { (result ≡ 1) ⊎ (result ≡ 2) ⊎ (result ≡ 5) → input.new ≡ input.old }
    ensures unread_declined { result ≡ 7 → input.new ≡ input.old }
    ensures lines_read { ((what : Asked) → asked_of (map string_bytes words.now) ≡ Some what → ¬ (ReadsInput what)) → input.new ≡ input.old }
    ensures unwritten { result ≡ 5 → output.new ≡ output.old }
    ensures folder_failed { F.faults folder.old < F.faults folder.new → (result ≡ 3) × (input.new ≡ input.old) × (output.new ≡ output.old) }
    ensures unasked { ((what : Asked) → asked_of (map string_bytes words.now) ≡ Some what → ¬ (ReadsFolder what)) → folder.new ≡ folder.old }
    ensures read { result ≡ 3 → Rose (F.faults folder.old) (F.faults folder.new) ⊎ Rose (I.faults input.old) (I.faults input.new) }
    ensures write { result ≡ 4 → Rose (O.faults output.old) (O.faults output.new) }
    ensures asked { AskedFor (asked_of (map string_bytes words.now)) (F.files folder.old) (F.asked folder.old) (F.asked folder.new) }
{
    match read_words(alloc, words) {
        Ok(command) => obey(rt, alloc, FIRST_VERSION, command, folder, input, output),
        Err(error) => not_read(error, output),
    }
}

/// Does what words other than `serve DIR` ask for, as [`crate::run`] does. It always returns.
pub fn run_alone<R: Threads + Sync, F: Folder, I: Source, O: Sink>(
    rt: &R,
    alloc: Global,
    words: &[String],
    folder: &mut F,
    input: &mut I,
    output: &mut O,
) -> u8
    requires { asked_of (map string_bytes words.now) ≢ Some for_serve }
    ensures ends { Ends first_version (asked_of (map string_bytes words.now)) (outside (F.files folder.old) (F.faults folder.old) (I.left input.old) (I.faults input.old) (O.held output.old) (O.faults output.old)) (outside (F.files folder.new) (F.faults folder.new) (I.left input.new) (I.faults input.new) (O.held output.new) (O.faults output.new)) result }
    ensures usage { result ≡ 1 → asked_of (map string_bytes words.now) ≡ None }
    ensures no_words { asked_of (map string_bytes words.now) ≡ None → IsSaid (O.held output.old) (O.held output.new) usage_text 1 result }
    ensures helped { asked_of (map string_bytes words.now) ≡ Some for_help → IsSaid (O.held output.old) (O.held output.new) usage_text 0 result }
    ensures fault { result ≡ 2 → HaveFault (asked_of (map string_bytes words.now)) (F.files folder.old) × ¬ (Rose (F.faults folder.old) (F.faults folder.new)) }
    ensures refused { (what : Asked) (fault : Fault) → asked_of (map string_bytes words.now) ≡ Some what → Loads what → IsTold (F.files folder.old) (λ files. Reads files (Err fault)) → ¬ (Rose (F.faults folder.old) (F.faults folder.new))
        → IsSaid (O.held output.old) (O.held output.new) (refused_line fault) 2 result ⊎ (result ≡ 5) }
    ensures checked { (project : Meant) → asked_of (map string_bytes words.now) ≡ Some for_check → IsTold (F.files folder.old) (λ files. Reads files (Ok project)) → ¬ (Rose (F.faults folder.old) (F.faults folder.new))
        → ((names : List (List ℕ)) × AreNames project names × IsSaid (O.held output.old) (O.held output.new) (accepted_line first_version names) 0 result) ⊎ (result ≡ 5) }
    ensures answered { (direction : Direction) (net : List ℕ) (project : Meant) → asked_of (map string_bytes words.now) ≡ Some (for_look (words_in direction net)) → IsTold (F.files folder.old) (λ files. Reads files (Ok project)) → ¬ (Rose (F.faults folder.old) (F.faults folder.new))
        → ((ending : Ending) × (result ≡ status_of ending) × HasAnswered (WithoutState (Replies project direction first_version net)) tt most_taken most_gathered (I.left input.old) (I.left input.new) (O.held output.old) (O.held output.new) ending) ⊎ (result ≡ 5) }
    ensures glossed { (net : List ℕ) (project : Meant) (table : List Entry) → asked_of (map string_bytes words.now) ≡ Some (for_look (glosses_in net)) → IsTold (F.files folder.old) (λ files. Reads files (Ok project)) → IsTold (F.files folder.old) (λ files. HasTable files table) → ¬ (Rose (F.faults folder.old) (F.faults folder.new))
        → ((ending : Ending) × (result ≡ status_of ending) × HasAnswered (WithoutState (GlossesLine project table first_version net)) tt most_taken most_gathered (I.left input.old) (I.left input.new) (O.held output.old) (O.held output.new) ending) ⊎ (result ≡ 5) }
    ensures att { (net : List ℕ) (project : Meant) → asked_of (map string_bytes words.now) ≡ Some (for_att net) → IsTold (F.files folder.old) (λ files. Reads files (Ok project)) → ¬ (Rose (F.faults folder.old) (F.faults folder.new))
        → ((told : Response) × IsAtt project first_version net told × IsSaid (O.held output.old) (O.held output.new) (response_bytes told) (response_status told) result) ⊎ (result ≡ 5) }
    ensures compared { (question : Question) (first second : List ℕ) (project : Meant) → asked_of (map string_bytes words.now) ≡ Some (for_compared question first second) → IsTold (F.files folder.old) (λ files. Reads files (Ok project)) → ¬ (Rose (F.faults folder.old) (F.faults folder.new))
        → ((told : Response) × IsCompared project first_version question first second told × IsSaid (O.held output.old) (O.held output.new) (response_bytes told) (response_status told) result) ⊎ (result ≡ 5) }
    ensures paired { (net : List ℕ) (project : Meant) → asked_of (map string_bytes words.now) ≡ Some (for_pairs net) → IsTold (F.files folder.old) (λ files. Reads files (Ok project)) → ¬ (Rose (F.faults folder.old) (F.faults folder.new))
        → ((grammar : Grammar Leaf) × HasGrammar project net grammar × ((ending : Ending) × (result ≡ status_of ending) × HasAnswered (WithoutState (RepliesToPairs project first_version net)) tt most_taken most_gathered (I.left input.old) (I.left input.new) (O.held output.old) (O.held output.new) ending))
        ⊎ ((line : List ℕ) × RefusesPairs project first_version net line × IsSaid (O.held output.old) (O.held output.new) line 7 result) ⊎ (result ≡ 5) }
    ensures saved { (file : List ℕ) (files : Files) → asked_of (map string_bytes words.now) ≡ Some (for_saved file) → F.files folder.old ≡ Some files → ¬ (Rose (F.faults folder.old) (F.faults folder.new))
        → ((text : List ℕ) × HasSavedText file text files × ((ending : Ending) × (result ≡ status_of ending) × HasAnswered (WithoutState (RepliesBySaved text first_version)) tt most_taken most_gathered (I.left input.old) (I.left input.new) (O.held output.old) (O.held output.new) ending))
        ⊎ ((line : ℕ) × (why : SavedWhy) × IsSavedFault file line why files × IsSaid (O.held output.old) (O.held output.new) (file_refused_line file line why) 2 result) ⊎ (result ≡ 5) }
    ensures declined { result ≡ 7 → (what : Asked) × (project : Meant) × (asked_of (map string_bytes words.now) ≡ Some what) × Told (F.files folder.old) (λ files. Reads files (Ok project)) × Declines what project × ¬ (Rose (F.faults folder.old) (F.faults folder.new)) }
    ensures generated { (stems : ℕ) → asked_of (map string_bytes words.now) ≡ Some (for_gen stems) → ((report : List ℕ) × IsReport stems report × IsSaid (O.held output.old) (O.held output.new) report 0 result) ⊎ (result ≡ 5) }
    ensures complete { (what : Asked) (project : Meant) → asked_of (map string_bytes words.now) ≡ Some what → Loads what → IsTold (F.files folder.old) (λ files. Reads files (Ok project)) → ¬ (Rose (F.faults folder.old) (F.faults folder.new))
        → ¬ (Rose (I.faults input.old) (I.faults input.new)) → ¬ (Rose (O.faults output.old) (O.faults output.new)) → result ≢ 6 → (result ≡ 0) ⊎ (result ≡ 5) ⊎ ((result ≡ 7) × Declines what project) }
    ensures complete_saved { (file : List ℕ) (files : Files) → asked_of (map string_bytes words.now) ≡ Some (for_saved file) → F.files folder.old ≡ Some files → file_fault (file_of file files) ≡ None → ¬ (Rose (F.faults folder.old) (F.faults folder.new))
        → ¬ (Rose (I.faults input.old) (I.faults input.new)) → ¬ (Rose (O.faults output.old) (O.faults output.new)) → result ≢ 6 → (result ≡ 0) ⊎ (result ≡ 5) }
    ensures spent { result ≡ 6 → HasSpent (I.left input.old) (I.left input.new) }
    ensures unread { (result ≡ 1) ⊎ (result ≡ 2) ⊎ (result ≡ 5) → input.new ≡ input.old }
    ensures unread_declined { result ≡ 7 → input.new ≡ input.old }
    ensures lines_read { ((what : Asked) → asked_of (map string_bytes words.now) ≡ Some what → ¬ (ReadsInput what)) → input.new ≡ input.old }
    ensures unwritten { result ≡ 5 → output.new ≡ output.old }
    ensures folder_failed { F.faults folder.old < F.faults folder.new → (result ≡ 3) × (input.new ≡ input.old) × (output.new ≡ output.old) }
    ensures unasked { ((what : Asked) → asked_of (map string_bytes words.now) ≡ Some what → ¬ (ReadsFolder what)) → folder.new ≡ folder.old }
    ensures read { result ≡ 3 → Rose (F.faults folder.old) (F.faults folder.new) ⊎ Rose (I.faults input.old) (I.faults input.new) }
    ensures write { result ≡ 4 → Rose (O.faults output.old) (O.faults output.new) }
    ensures asked { AskedFor (asked_of (map string_bytes words.now)) (F.files folder.old) (F.asked folder.old) (F.asked folder.new) }
{
    ended(rt, alloc, words, folder, input, output)
}
