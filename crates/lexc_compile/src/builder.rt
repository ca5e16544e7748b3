ghost use Rattle.std.specs.Prelude.{◌≡◌, ◌<◌, ◌↔◌, ◌++◌, ◌∷◌, [], ℕ, List, Some, Contains, false, true, IfOk, OnOk, replicate};
ghost use Rattle.fsa.specs.Automaton.{UsesLetter};
ghost use Rattle.fsa.specs.Language.{Accepts};
ghost use Rattle.flag_diacritics.specs.declared.tape.Tape.{Tape};
ghost use Rattle.lexc_compile.specs.Growing.{Gives, IsBegun, IsGiven, IsPlaced};
ghost use Rattle.lexc_compile.specs.Paths.{HasPath, PlacedEntry, SomeEntryUses, network, word};

use crate::blocks::add_block;
use crate::steps::StepTable;
use crate::words::add_word;
use flag_diacritics::Tape;
use fsa::Fsa;
use fsa_rational::add_epsilon;
use std::alloc::{AllocError, Global};
use std::marker::Model;

/// The automaton of lexicons, to which entries are given one by one. It has a state for each lexicon, one for each front of
/// the words that are entries of a lexicon, however many of its words begin so, and the states of each other entry's network.
/// So it takes time in proportion to the entries, and has fewer states where words begin alike. Contracts see it as the number
/// of lexicons, the automaton so far and the steps of its words; `IsGiven` says of which entries it is. After an error of a
/// call nothing more may be given to it: what it is then isn't said.
#[derive(Debug, Drop)]
pub struct LexiconBuilder {
    /// How many lexicons there are.
    count: usize,
    /// The automaton of the entries so far: its start, a state for each lexicon, and the end, which alone is final, come first.
    automaton: Fsa<Tape>,
    /// Where the steps of words lead to.
    steps: StepTable,
}

impl Model for LexiconBuilder {
    ghost use Rattle.std.specs.Prelude.{◌<◌};
    ghost use Rattle.lexc_compile.specs.Growing.{Growing};

    ghost Value = { Growing };

    ghost view = { λ b. record { count = b.count; automaton = b.automaton; steps = b.steps } };

    ghost invariant = { λ b. b.count < 18446744073709551615 };
}

impl LexiconBuilder {
    /// The automaton of so many lexicons without entries, in which a path begins in the root lexicon, by its place.
    pub fn new(alloc: Global, count: usize, root: u32) -> Result<LexiconBuilder, AllocError>
        requires room { count < 18446744073709551615 }
        requires root { root < count }
        ensures count { IfOk result (λ builder. builder.count ≡ count) }
        ensures given { IfOk result (IsGiven root []) }
    {
        let mut automaton = homes(alloc, count)?;
        add_epsilon(&mut automaton, 0, root as usize + 1)?;
        Ok(LexiconBuilder {
            count,
            automaton,
            steps: StepTable::new(alloc),
        })
    }

    /// Gives it an entry of the lexicon at a place that adds a tape. Where the path goes on is a lexicon's place, or `None` at its
    /// end. It takes time in proportion to the tape.
    pub fn add_word(
        &mut self,
        place: usize,
        tape: &[Tape],
        next: Option<u32>,
    ) -> Result<(), AllocError>
        requires begun { IsBegun self.old }
        requires placed { IsPlaced self.old.count (record { place = place; content = word tape.now; next = next }) }
        ensures { OnOk result (Gives (record { place = place; content = word tape.now; next = next }) self.old self.new) }
    {
        let count = self.count;
        add_word(
            &mut self.automaton,
            &mut self.steps,
            count,
            place,
            tape,
            next,
        )
    }

    /// Gives it an entry of the lexicon at a place that adds one of the tapes of a network.
    pub fn add_network(
        &mut self,
        place: usize,
        net: &Fsa<Tape>,
        next: Option<u32>,
    ) -> Result<(), AllocError>
        requires begun { IsBegun self.old }
        requires placed { IsPlaced self.old.count (record { place = place; content = network net.now; next = next }) }
        ensures { OnOk result (Gives (record { place = place; content = network net.now; next = next }) self.old self.new) }
    {
        add_block(&mut self.automaton, self.count, place, net, next)
    }

    /// The automaton of the tapes of all paths that begin in the root lexicon.
    pub fn finish(self) -> Fsa<Tape>
        ensures letters { (root : ℕ) (entries : List PlacedEntry) → IsGiven root entries self → (x : Tape) → UsesLetter result x → SomeEntryUses (Contains entries) x }
        ensures language { (root : ℕ) (entries : List PlacedEntry) → IsGiven root entries self → (tape : List Tape) → Accepts result tape ↔ HasPath (Contains entries) (Some root) tape }
    {
        self.automaton
    }
}

/// The start, a state for each lexicon, and the end, which alone is final.
fn homes(alloc: Global, count: usize) -> Result<Fsa<Tape>, AllocError>
    ensures { IfOk result (λ m. m ≡ record { edges = []; finals = (replicate count false ++ false ∷ []) ++ true ∷ [] }) }
{
    let mut finals = vec![in alloc; false; count]?;
    finals.push(false)?;
    finals.push(true)?;
    Ok(Fsa::of_states(alloc, finals))
}
