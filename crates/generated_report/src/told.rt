ghost use Rattle.std.specs.Prelude.{◌≡◌, ◌<◌, ◌-◌, ◌^◌, List, ℕ, All, length, IfOk};
ghost use Rattle.std.specs.List.{AllZip};
ghost use Rattle.fsm_base.specs.declared.letters.Sym.{Sym};
ghost use Rattle.interlinear.specs.Blocks.{width_of};
ghost use Rattle.lookup.specs.Answering.{IsOverAlphabet};
ghost use Rattle.lookup_answers.specs.Answers.{found_of};
ghost use Rattle.project_meaning.specs.Projects.{Project};
ghost use Rattle.generated_report.specs.Counts.{how_many};
ghost use Rattle.generated_report.specs.Told.{FindsUpper, IsTold};

use fsm_base::{Alphabet, Text, TokensError};
use interlinear::{Cell, GlossTable};
use lookup::{Answer, Net, up};
use rayon::prelude::*;
use std::alloc::{AllocError, Global};
use std::thread::Threads;
use unicode_width::UnicodeWidthStr;

/// How many strings are found of a word.
#[derive(Clone, Copy, Debug, PartialEq, Eq)]
pub enum HowMany {
    /// None, also where no symbol begins at some place of the word.
    None,
    /// One.
    One,
    /// More, also where they are too many to be listed, or without end.
    Many,
}

/// What is told of a word.
#[derive(Clone, Copy, Debug)]
pub struct Told {
    /// How many strings are found of it.
    pub many: HowMany,
    /// How many columns its analysis takes.
    pub columns: usize,
}

impl HowMany {
    /// How many strings an answer has.
    fn of(answer: &Answer) -> HowMany
        ensures { result ≡ how_many (found_of answer.now) }
    {
        let Answer::Strings(texts) = answer else {
            return HowMany::Many;
        };
        match texts.as_slice() {
            [] => HowMany::None,
            [_] => HowMany::One,
            _ => HowMany::Many,
        }
    }
}

impl Told {
    /// What is told of a word of which so many strings are found, and which has this cell.
    fn of(many: HowMany, cell: &Cell) -> Told
        ensures many { result.many ≡ many }
        ensures columns { result.columns ≡ width_of cell.now.analysis }
    {
        Told {
            many,
            columns: cell.analysis.as_str().width(),
        }
    }
}

/// What is told of a word that is looked up in a network over an alphabet, upwards. It is looked up once.
fn told_of(
    alloc: Global,
    alphabet: &Alphabet,
    net: &Net,
    table: &GlossTable,
    word: &Text,
) -> Result<Told, AllocError>
    requires over { IsOverAlphabet alphabet.now net.now }
    requires short { length word.now < 2 ^ 32 - 1 }
    ensures { (project : Project) (name : List ℕ) → FindsUpper alphabet.now net.now project name → IfOk result (IsTold project table.now name word.now) }
{
    match alphabet.tokens(alloc, word.as_str()) {
        Ok(symbols) => {
            let answer = up(alloc, net, alphabet, &symbols)?;
            let cell = Cell::found(alloc, table, word.clone()?, &answer)?;
            Ok(Told::of(HowMany::of(&answer), &cell))
        }
        Err(TokensError::NoSymbol { .. }) => {
            let cell = Cell::without_symbol(alloc, word.clone()?)?;
            Ok(Told::of(HowMany::None, &cell))
        }
        Err(TokensError::Memory(error)) => Err(error),
    }
}

/// What is told of words, in order, by as many threads as there are processors.
pub fn told_of_words<R: Threads + Sync>(
    rt: &R,
    alloc: Global,
    alphabet: &Alphabet,
    net: &Net,
    table: &GlossTable,
    words: &[Text],
) -> Result<Vec<Told>, AllocError>
    requires over { IsOverAlphabet alphabet.now net.now }
    requires short { All (λ word. length word < 2 ^ 32 - 1) words.now }
    ensures { (project : Project) (name : List ℕ) → FindsUpper alphabet.now net.now project name → IfOk result (λ told. AllZip (IsTold project table.now name) words.now told.items) }
{
    words
        .par_iter()
        .map(
            |word: &Text| -> Result<Told, AllocError>
                requires over { IsOverAlphabet alphabet.now net.now }
                requires short { length word.now < 2 ^ 32 - 1 }
                ensures { (project : Project) (name : List ℕ) → FindsUpper alphabet.entry.now net.entry.now project name → IfOk result (IsTold project table.entry.now name word.now) }
            { told_of(alloc, alphabet, net, table, word) },
        )
        .collect::<Result<Vec<_>, AllocError>>(rt, alloc)?
}
