ghost use Rattle.std.specs.Prelude.{◌≡◌, ◌↔◌, IfOk, List, Some, Contains, map};
ghost use Rattle.std.proofs.Common.{rules};
ghost use Rattle.fsm_base.specs.declared.letters.Sym.{Sym};
ghost use Rattle.fsm_base.specs.declared.letters.Bound.{Bound};
ghost use Rattle.fsa.specs.Automaton.{UsesLetter};
ghost use Rattle.fsa.specs.Language.{Accepts};
ghost use Rattle.network_algebra.specs.Networks.{UsesOnly, all_letters};
ghost use Rattle.network_sets.specs.Split.{IsBordered, IsSplit, kept, kept_table, split_letters};
ghost use Rattle.network_sets.specs.declared.parts.Split.TheVariants.{Letter};

use fsa::Fsa;
use fsa_rational::concat;
use fsm_base::{Bound, Letter, Sym};
use network_algebra::{Renaming, every_letter, renamed, word};
use std::alloc::{AllocError, Global};

/// A letter of a word that is split in parts.
#[derive(Clone, Copy, Debug, PartialEq, Eq, PartialOrd, Ord)]
pub enum Split {
    /// A letter of a part.
    Letter(Bound<Sym>),
    /// The border between two parts.
    Border,
}

impl Letter for Split {
    ghost equal_is_same = { Prim.search rules };
}

/// Each letter as a letter of a part.
struct OfPart;

impl Renaming<Bound<Sym>, Split> for OfPart {
    ghost name = { λ _ x. Some (Letter x) };

    fn name_of(&self, letter: Bound<Sym>) -> Option<Split> {
        Some(Split::Letter(letter))
    }
}

impl Split {
    /// The letter, where it is inside the word.
    fn kept(self) -> Option<Bound<Sym>>
        ensures { result ≡ kept self }
    {
        match self {
            Split::Border => None,
            Split::Letter(letter) => match letter {
                Bound::Edge => None,
                Bound::Inner(symbol) => Some(Bound::Inner(symbol)),
            },
        }
    }
}

/// The words of a language as parts.
fn of_part(alloc: Global, a: &Fsa<Bound<Sym>>) -> Result<Fsa<Split>, AllocError>
    ensures letters { IfOk result (λ m. (x : Split) → UsesLetter m x → (y : Bound Sym) × UsesLetter a.now y × (x ≡ Letter y)) }
    ensures words { IfOk result (λ m. (v : List Split) → Accepts m v ↔ ((w : List (Bound Sym)) × Accepts a.now w × (v ≡ map Letter w))) }
{
    renamed(alloc, a, &OfPart)
}

/// The split words with parts of three languages.
pub fn split_words(
    alloc: Global,
    before: &Fsa<Bound<Sym>>,
    part: &Fsa<Bound<Sym>>,
    behind: &Fsa<Bound<Sym>>,
) -> Result<Fsa<Split>, AllocError>
    ensures letters { IfOk result (λ m. (symbols : List Sym) → UsesOnly (all_letters symbols) before.now → UsesOnly (all_letters symbols) part.now → UsesOnly (all_letters symbols) behind.now → UsesOnly (split_letters symbols) m) }
    ensures words { IfOk result (λ m. (v : List Split) → Accepts m v ↔ IsSplit (Accepts before.now) (Accepts part.now) (Accepts behind.now) v) }
{
    let front = bordered(alloc, before)?;
    let middle = bordered(alloc, part)?;
    let back = of_part(alloc, behind)?;
    concat(alloc, &front, &concat(alloc, &middle, &back)?)
}

/// The words of a language as parts, with the border behind them.
fn bordered(alloc: Global, a: &Fsa<Bound<Sym>>) -> Result<Fsa<Split>, AllocError>
    ensures letters { IfOk result (λ m. (symbols : List Sym) → UsesOnly (all_letters symbols) a.now → UsesOnly (split_letters symbols) m) }
    ensures words { IfOk result (λ m. (v : List Split) → Accepts m v ↔ IsBordered (Accepts a.now) v) }
{
    concat(alloc, &of_part(alloc, a)?, &word(alloc, &[Split::Border])?)
}

/// The letters of split words over an alphabet.
pub fn every_split_letter(alloc: Global, symbols: &[Sym]) -> Result<Vec<Split>, AllocError>
    ensures { IfOk result (λ letters. letters.items ≡ split_letters symbols.now) }
{
    let mut letters = Vec::new(alloc);
    letters.push(Split::Border)?;
    letters.extend_from_slice(&part_letters(alloc, &every_letter(alloc, symbols)?)?)?;
    Ok(letters)
}

/// Each letter as a letter of a part.
fn part_letters(alloc: Global, letters: &[Bound<Sym>]) -> Result<Vec<Split>, AllocError>
    ensures { IfOk result (λ parts. parts.items ≡ map Letter letters.now) }
{
    let mut parts = Vec::new(alloc);
    for letter in letters {
        parts.push(Split::Letter(*letter))?;
    }
    Ok(parts)
}

/// The table that drops borders and edges.
pub fn kept_rows(
    alloc: Global,
    letters: &[Split],
) -> Result<Vec<(Split, Option<Bound<Sym>>)>, AllocError>
    ensures { IfOk result (λ rows. rows.items ≡ kept_table letters.now) }
{
    let mut rows = Vec::new(alloc);
    for letter in letters {
        rows.push((*letter, letter.kept()))?;
    }
    Ok(rows)
}
