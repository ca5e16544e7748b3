ghost use Rattle.std.specs.Prelude.{◌≡◌, ◌↔◌, ◌⊎◌, Some, map, slice_get, IfOk, IsTrue, MatchResult};
ghost use Rattle.std.specs.Option.{option_map};
ghost use Rattle.std.specs.String.{string_bytes};
ghost use Rattle.fsm_base.specs.Normal.{nfc_of};
ghost use Rattle.fsm_program.specs.Ends.{IsWhyUnread, asked_by, asked_of, asked_of_file, asked_of_four, asked_of_name, asked_of_one, asked_of_three, asked_of_two, for_look, for_serve, form_of, is_help, question_of, stems_of};

use crate::look_up::Task;
use fsm_base::{Text, nfc};
use generated_report::MOST_STEMS;
use lookup_answers::Direction;
use named_networks::Question;
use project_manifest::is_file_name;
use std::alloc::{AllocError, Global};
use thiserror::Error;

/// What the words of a command line ask for. DIR is for the caller of [`crate::run`].
#[derive(Debug, Drop)]
pub enum Command {
    /// `check DIR`: whether the project has a fault.
    Check,
    /// `up DIR NET`: the upper words of each line of the input.
    Up {
        /// The name that is looked up in, in Normalization Form C.
        net: Text,
    },
    /// `down DIR NET`: the lower words of each line of the input.
    Down {
        /// The name that is looked up in, in Normalization Form C.
        net: Text,
    },
    /// `gloss DIR NET`: the words of each line of the input with their analyses and glosses.
    Gloss {
        /// The name that is looked up in, in Normalization Form C.
        net: Text,
    },
    /// `serve DIR`: the replies to the commands of the input, and to the lines of lanes.
    Serve,
    /// `gen N`: what is answered of a project that is made.
    Gen {
        /// How many stems it has.
        n: u32,
    },
    /// `att DIR NET`: the AT&T text of a name.
    Att {
        /// The name, in Normalization Form C.
        net: Text,
    },
    /// `attup DIR FILE`: the upper words of each line of the input in a file of AT&T text.
    AttUp {
        /// The name of the file, which has the form of a name that a manifest may give to a file.
        file: Text,
    },
    /// `pairs DIR NET`: whether each line of the input, a string of pairs, keeps the rules of a name, or which it breaks first.
    Pairs {
        /// The name, in Normalization Form C.
        net: Text,
    },
    /// `equal DIR A B` or `within DIR A B`: how the languages of two names compare.
    Compare {
        /// Whether they have the same words, or each word of A is one of B's.
        question: Question,
        /// A, in Normalization Form C.
        first: Text,
        /// B, in Normalization Form C.
        second: Text,
    },
    /// `help`, `-h` or `--help`: the forms of the words.
    Help,
}

/// Why the words of a command line ask for nothing.
#[derive(Debug, Drop, Error)]
pub enum WordsError {
    /// The words are in no form.
    #[error("the words are in no form")]
    Usage,
    /// There was no memory.
    #[error(transparent)]
    Memory(AllocError),
}

impl From<AllocError> for WordsError {
    ghost use Rattle.std.specs.Prelude.{◌≡◌};
    ghost use Rattle.fsm_program.specs.declared.words.WordsError.TheVariants.{Memory};

    ghost from_gives = { λ refused error. error ≡ Memory refused };

    fn from(refused: AllocError) -> WordsError {
        WordsError::Memory(refused)
    }
}

/// Whether a word asks for help.
fn is_help(word: &str) -> bool
    ensures { result ≡ is_help word.now }
{
    word == "help" || word == "-h" || word == "--help"
}

/// What a command of three words asks of the last one.
#[derive(Clone, Copy, Debug, PartialEq, Eq)]
pub enum NameForm {
    /// It is a name, in which the lines of the input are looked up.
    Lines(Task),
    /// It is a name, whose AT&T text is asked for.
    Att,
    /// It is a name, whose rules are tried on the lines of the input.
    Pairs,
    /// It is a file of AT&T text, in which the lines of the input are looked up.
    File,
}

/// What a command of three words asks of the last one.
fn form_of(command: &str) -> Option<NameForm>
    ensures { result ≡ form_of command.now }
{
    match command {
        "up" => Some(NameForm::Lines(Task::Words(Direction::Up))),
        "down" => Some(NameForm::Lines(Task::Words(Direction::Down))),
        "gloss" => Some(NameForm::Lines(Task::Glosses)),
        "att" => Some(NameForm::Att),
        "pairs" => Some(NameForm::Pairs),
        "attup" => Some(NameForm::File),
        _ => None,
    }
}

/// What a command of four words asks of the last two.
fn question_of(command: &str) -> Option<Question>
    ensures { result ≡ question_of command.now }
{
    match command {
        "equal" => Some(Question::Equal),
        "within" => Some(Question::Within),
        _ => None,
    }
}

/// Whether a word begins as no number of stems does: with a sign, or with a zero.
fn begins_wrongly(word: &[u8]) -> bool
    ensures { IsTrue result ↔ ((slice_get word.now 0 ≡ Some 43) ⊎ (slice_get word.now 0 ≡ Some 48)) }
{
    match word.first() {
        Some(first) => *first == b'+' || *first == b'0',
        None => false,
    }
}

/// How many stems a word says: a number in decimal without a leading zero, from 1 to the most that a project is made of.
fn stems_of(word: &str) -> Option<u32>
    ensures { result ≡ stems_of word.now }
{
    if begins_wrongly(word.as_bytes()) {
        return None;
    }
    let stems = word.parse::<u32>().ok()?;
    if 1 <= stems && stems <= MOST_STEMS {
        Some(stems)
    } else {
        None
    }
}

/// Whether the words are `serve DIR`.
pub fn is_serve(words: &[String]) -> bool
    ensures { IsTrue result ↔ (asked_of (map string_bytes words.now) ≡ Some for_serve) }
{
    match words {
        [command, _] => command.as_str() == "serve",
        _ => false,
    }
}

/// A look-up in a name, which is put into Normalization Form C.
fn look_up(alloc: Global, task: Task, net: &str) -> Result<Command, AllocError>
    ensures { IfOk result (λ command. asked_by command ≡ for_look (record { task = task; net = nfc_of net.now })) }
{
    let net = nfc(alloc, net)?;
    match task {
        Task::Words(Direction::Up) => Ok(Command::Up { net }),
        Task::Words(Direction::Down) => Ok(Command::Down { net }),
        Task::Glosses => Ok(Command::Gloss { net }),
    }
}

/// What is asked of a file of AT&T text.
///
/// # Errors
///
/// As [`read_words`].
fn of_file(alloc: Global, file: &str) -> Result<Command, WordsError>
    ensures { MatchResult result (λ command. asked_of_file file.now ≡ Some (asked_by command)) (IsWhyUnread (asked_of_file file.now)) }
{
    if !is_file_name(file.as_bytes()) {
        return Err(WordsError::Usage);
    }
    let file = Text::of(alloc, file)?;
    Ok(Command::AttUp { file })
}

/// What is asked of the last of three words. Names are put into Normalization Form C.
///
/// # Errors
///
/// As [`read_words`].
fn of_name(alloc: Global, form: NameForm, name: &str) -> Result<Command, WordsError>
    ensures { MatchResult result (λ command. asked_of_name form name.now ≡ Some (asked_by command)) (IsWhyUnread (asked_of_name form name.now)) }
{
    match form {
        NameForm::Lines(task) => Ok(look_up(alloc, task, name)?),
        NameForm::Att => {
            let net = nfc(alloc, name)?;
            Ok(Command::Att { net })
        }
        NameForm::Pairs => {
            let net = nfc(alloc, name)?;
            Ok(Command::Pairs { net })
        }
        NameForm::File => of_file(alloc, name),
    }
}

/// What one word asks for.
fn one_word(word: &str) -> Result<Command, WordsError>
    ensures { MatchResult result (λ asks. asked_of_one word.now ≡ Some (asked_by asks)) (IsWhyUnread (asked_of_one word.now)) }
{
    if is_help(word) {
        Ok(Command::Help)
    } else {
        Err(WordsError::Usage)
    }
}

/// What a command asks for that has one word behind it, a folder or a number.
fn two_words(command: &str, word: &str) -> Result<Command, WordsError>
    ensures { MatchResult result (λ asks. asked_of_two command.now word.now ≡ Some (asked_by asks)) (IsWhyUnread (asked_of_two command.now word.now)) }
{
    match command {
        "check" => Ok(Command::Check),
        "serve" => Ok(Command::Serve),
        "gen" => match stems_of(word) {
            Some(n) => Ok(Command::Gen { n }),
            None => Err(WordsError::Usage),
        },
        _ => Err(WordsError::Usage),
    }
}

/// What a command asks for that has a folder and a name behind it.
fn three_words(alloc: Global, command: &str, name: &str) -> Result<Command, WordsError>
    ensures { MatchResult result (λ asks. asked_of_three command.now name.now ≡ Some (asked_by asks)) (IsWhyUnread (asked_of_three command.now name.now)) }
{
    match form_of(command) {
        Some(form) => of_name(alloc, form, name),
        None => Err(WordsError::Usage),
    }
}

/// What a command asks for that has a folder and two names behind it, which are put into Normalization Form C.
fn four_words(
    alloc: Global,
    command: &str,
    first: &str,
    second: &str,
) -> Result<Command, WordsError>
    ensures { MatchResult result (λ asks. asked_of_four command.now first.now second.now ≡ Some (asked_by asks)) (IsWhyUnread (asked_of_four command.now first.now second.now)) }
{
    let Some(question) = question_of(command) else {
        return Err(WordsError::Usage);
    };
    let first = nfc(alloc, first)?;
    let second = nfc(alloc, second)?;
    Ok(Command::Compare {
        question,
        first,
        second,
    })
}

/// Reads the words of a command line, of which the first is the command: `check DIR`, `up DIR NET`, `down DIR NET`,
/// `gloss DIR NET`, `serve DIR`, `gen N`, `att DIR NET`, `attup DIR FILE`, `pairs DIR NET`, `equal DIR A B`, `within DIR A B`, `help`, `-h` or
/// `--help`. FILE has the form of a name that a manifest may give to a file.
///
/// # Errors
///
/// `Usage` where the words are in none of these forms, and `Memory` where they are and there was no memory.
#[tactic(auto, using(crate::proofs::Unread::asks_too_few, crate::proofs::Unread::asks_too_many))]
pub fn read_words(alloc: Global, words: &[String]) -> Result<Command, WordsError>
    ensures { MatchResult result (λ command. asked_of (map string_bytes words.now) ≡ Some (asked_by command)) (IsWhyUnread (asked_of (map string_bytes words.now))) }
{
    match words {
        [word] => one_word(word.as_str()),
        [command, word] => two_words(command.as_str(), word.as_str()),
        [command, _, name] => three_words(alloc, command.as_str(), name.as_str()),
        [command, _, first, second] => four_words(
            alloc,
            command.as_str(),
            first.as_str(),
            second.as_str(),
        ),
        _ => Err(WordsError::Usage),
    }
}
