ghost use Rattle.std.specs.Prelude.{◌≡◌, ◌<◌, ◌↔◌, [], All, IfOk, IsTrue, OnOk, length};
ghost use Rattle.fsm_base.specs.Alphabet.{texts_of};
ghost use Rattle.fsm_base.specs.Symbols.{number_of, with_text};
ghost use Rattle.touched_names.specs.Itself.{names_in, places_among};
ghost use Rattle.word_relations.specs.Words.{IsDistinct};

use fsm_base::{Alphabet, Text};
use indexmap::IndexSet;
use project_definitions::Definition;
use std::alloc::{AllocError, Global};
use std::marker::Model;

/// Texts, each once, in the order in which they came. Contracts see them as their list.
#[derive(Drop)]
struct Texts {
    /// The texts. The place of a text is its number.
    texts: IndexSet<String>,
}

impl Model for Texts {
    ghost use Rattle.std.specs.Prelude.{List, ℕ, map};
    ghost use Rattle.std.specs.String.{string_bytes};

    ghost Value = { List (List ℕ) };

    ghost view = { λ texts. map string_bytes texts.texts.keys };
}

impl Texts {
    /// These texts, which are distinct.
    fn of(alloc: Global, texts: &[Text]) -> Result<Texts, AllocError>
        ensures { IsDistinct texts.now → IfOk result (λ all. all ≡ texts.now) }
    {
        let mut all = Texts {
            texts: IndexSet::new(alloc),
        };
        'texts: for text in texts {
            all.add(text.as_str())?;
        }
        Ok(all)
    }

    /// Puts a text behind the others where it's new.
    fn add(&mut self, text: &str) -> Result<(), AllocError>
        ensures { OnOk result (self.new ≡ with_text text.now self.old) }
    {
        if self.texts.contains(text) {
            return Ok(());
        }
        let owned = String::from_str(*self.texts.allocator(), text)?;
        self.texts.insert_full(owned)?;
        Ok(())
    }

    /// The place of a text, counted from 0, or the number of texts where it's none of them.
    fn number_of(&self, text: &str) -> usize
        ensures { result ≡ number_of text.now self.now }
    {
        match self.texts.get_index_of(text) {
            Some(place) => place,
            None => self.texts.len(),
        }
    }
}

/// The places of texts among others, which are distinct. One that isn't there has the next place.
pub(crate) fn places_among(
    alloc: Global,
    others: &[Text],
    texts: &[Text],
) -> Result<Vec<usize>, AllocError>
    ensures places { IsDistinct others.now → IfOk result (λ places. places.items ≡ places_among others.now texts.now) }
    ensures count { IfOk result (λ places. length places.items ≡ length texts.now) }
{
    let table = Texts::of(alloc, others)?;
    let mut places = Vec::new(alloc);
    'texts: for text in texts {
        places.push(table.number_of(text.as_str()))?;
    }
    Ok(places)
}

/// Whether each place is below a number.
pub(crate) fn are_below(places: &[usize], count: usize) -> bool
    ensures { IsTrue result ↔ All (λ place. place < count) places.now }
{
    places.iter().all(|place| *place < count)
}

/// The texts of the symbols of an alphabet, in their order.
pub(crate) fn texts_in(alloc: Global, alphabet: &Alphabet) -> Result<Vec<Text>, AllocError>
    ensures { IfOk result (λ texts. texts.items ≡ texts_of alphabet.now) }
{
    let mut texts = Vec::new(alloc);
    'symbols: for symbol in alphabet.symbols() {
        texts.push(alphabet.text(alloc, &[*symbol])?)?;
    }
    Ok(texts)
}

/// The names of definitions, in their order.
pub(crate) fn names_in(alloc: Global, definitions: &[Definition]) -> Result<Vec<Text>, AllocError>
    ensures { IfOk result (λ names. names.items ≡ names_in definitions.now) }
{
    let mut names = Vec::new(alloc);
    'definitions: for definition in definitions {
        names.push(definition.name.clone()?)?;
    }
    Ok(names)
}
