ghost use Rattle.std.specs.Prelude.{◌≡◌, ◌<◌, ◌-◌, ◌^◌, List, ℕ, All, Some, length, IfOk};
ghost use Rattle.interlinear.specs.Glosses.{Entry};
ghost use Rattle.interlinear.specs.Replies.{AreCells, GlossesText, IsCell};
ghost use Rattle.lookup.specs.Answering.{IsOverAlphabet};
ghost use Rattle.project_meaning.specs.Projects.{Project};
ghost use Rattle.project_store.specs.Networks.{Shows};

use crate::answers::look;
use fsm_base::{Alphabet, Text, TokensError};
use interlinear::{Cell, GlossTable, block, words_of};
use lookup::Net;
use lookup_answers::Direction;
use std::alloc::{AllocError, Global};

/// The cell of a word, which is looked up in a network over an alphabet, upwards.
fn cell_in(
    alloc: Global,
    alphabet: &Alphabet,
    net: &Net,
    table: &GlossTable,
    word: Text,
) -> Result<Cell, AllocError>
    requires over { IsOverAlphabet alphabet.now net.now }
    requires short { length word < 2 ^ 32 - 1 }
    ensures word { IfOk result (λ cell. cell.word ≡ word) }
    ensures cell { (project : Project) (name : List ℕ) (glosses : List Entry) → Shows (record { alphabet = alphabet.now; name = name; net = Some net.now; glosses = glosses }) project
        → IfOk result (IsCell project table.now name) }
{
    match alphabet.tokens(alloc, word.as_str()) {
        Ok(symbols) => {
            let answer = look(alloc, alphabet, net, Direction::Up, &symbols)?;
            Cell::found(alloc, table, word, &answer)
        }
        Err(TokensError::NoSymbol { .. }) => Cell::without_symbol(alloc, word),
        Err(TokensError::Memory(error)) => Err(error),
    }
}

/// The cells of words, in order.
fn cells_of(
    alloc: Global,
    alphabet: &Alphabet,
    net: &Net,
    table: &GlossTable,
    words: &[Text],
) -> Result<Vec<Cell>, AllocError>
    requires over { IsOverAlphabet alphabet.now net.now }
    requires short { All (λ word. length word < 2 ^ 32 - 1) words.now }
    ensures { (project : Project) (name : List ℕ) (glosses : List Entry) → Shows (record { alphabet = alphabet.now; name = name; net = Some net.now; glosses = glosses }) project
        → IfOk result (λ cells. AreCells project table.now name words.now cells.items) }
{
    let mut cells = Vec::new(alloc);
    'words: for word in words {
        let cell = cell_in(alloc, alphabet, net, table, word.clone()?)?;
        cells.push(cell)?;
    }
    Ok(cells)
}

/// The reply to a text whose words are looked up in a network over an alphabet and told in glosses, at a version.
pub fn gloss_in(
    alloc: Global,
    alphabet: &Alphabet,
    net: &Net,
    table: &GlossTable,
    version: u64,
    text: &str,
) -> Result<Vec<u8>, AllocError>
    requires over { IsOverAlphabet alphabet.now net.now }
    requires short { length text.now < 2 ^ 32 - 1 }
    ensures { (project : Project) (name : List ℕ) (glosses : List Entry) → Shows (record { alphabet = alphabet.now; name = name; net = Some net.now; glosses = glosses }) project
        → IfOk result (λ bytes. GlossesText project table.now version name text.now bytes.items) }
{
    let words = words_of(alloc, text)?;
    let cells = cells_of(alloc, alphabet, net, table, &words)?;
    block(alloc, version, &cells)
}
