ghost use Rattle.std.specs.Prelude.{◌<◌, ◌-◌, ◌^◌, List, ℕ, Some, length, IfOk};
ghost use Rattle.word_relations.specs.Answers.{Answers};
ghost use Rattle.interlinear.specs.Glosses.{Entry};
ghost use Rattle.project_meaning.specs.Projects.{Project};
ghost use Rattle.reply_meaning.specs.Replies.{RepliesToWord};
ghost use Rattle.lookup_answers.specs.Answers.{found_of};
ghost use Rattle.lookup.specs.Answering.{IsOverAlphabet};
ghost use Rattle.project_store.specs.Networks.{Shows, TextsTo};

use fsm_base::{Alphabet, Sym, TokensError};
use lookup::{Answer, Net, down, up};
use lookup_answers::Direction;
use reply_text::{answer, symbol};
use std::alloc::{AllocError, Global};

/// The words that a network relates to a word, in one direction.
pub fn look(
    alloc: Global,
    alphabet: &Alphabet,
    net: &Net,
    direction: Direction,
    word: &[Sym],
) -> Result<Answer, AllocError>
    requires { IsOverAlphabet alphabet.now net.now }
    ensures { IfOk result (λ answer. Answers (TextsTo direction net.now alphabet.now word.now) (found_of answer)) }
{
    match direction {
        Direction::Up => up(alloc, net, alphabet, word),
        Direction::Down => down(alloc, net, alphabet, word),
    }
}

/// The reply to a word that is looked up in a network over an alphabet, at a version.
pub fn reply_in(
    alloc: Global,
    alphabet: &Alphabet,
    net: &Net,
    direction: Direction,
    version: u64,
    word: &str,
) -> Result<Vec<u8>, AllocError>
    requires over { IsOverAlphabet alphabet.now net.now }
    requires short { length word.now < 2 ^ 32 - 1 }
    ensures { (project : Project) (name : List ℕ) (glosses : List Entry) → Shows (record { alphabet = alphabet.now; name = name; net = Some net.now; glosses = glosses }) project
        → IfOk result (λ bytes. RepliesToWord project direction version name word.now bytes.items) }
{
    match alphabet.tokens(alloc, word) {
        Ok(symbols) => {
            let found = look(alloc, alphabet, net, direction, &symbols)?;
            answer(alloc, version, word, &found)
        }
        Err(TokensError::NoSymbol { at }) => symbol(alloc, version, at, word),
        Err(TokensError::Memory(error)) => Err(error),
    }
}
