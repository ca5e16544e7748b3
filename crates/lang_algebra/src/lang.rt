ghost use Rattle.std.specs.Prelude.{◌≡◌, ◌↔◌, ◌⊎◌, [], IfOk, IsTrue, List, Contains, reverse};
ghost use Rattle.word_relations.specs.Words.{IsDistinct, IsOver, IsConcatenation, IsRepetition};
ghost use Rattle.fsa.specs.Automaton.{UsesLetter, HasNoEpsilonEdge};
ghost use Rattle.fsa.specs.Complete.{Accepts, IsComplete};
ghost use Rattle.fsa.specs.Language as language;
ghost use Rattle.lang_algebra.specs.Languages.{IsLang, IsFewestCount};
ghost use Rattle.fsa_minimal.specs.Fewest.{HasFewest};
ghost use Rattle.word_relations.specs.Operations.{IsOneLetter, HasPart, IsIgnoring};

use crate::letters::one_letter;
use crate::live::trim;
use fsa::{Dfa, Fsa};
use fsa_minimal::minimal;
use fsa_subset::determine;
use fsm_base::Letter;
use std::alloc::{AllocError, Global};
use std::marker::Model;

/// A language over a list of letters, each of which stands once. Contracts see a complete deterministic automaton
/// over the letters, in their order, whose words are those of the language. Each operation makes it the smallest one
/// again, so that useless states don't add up.
#[derive(Debug, Drop)]
pub struct Lang<L> {
    /// The automaton of the language, with the fewest states.
    dfa: Dfa<L>,
}

impl<L> Model for Lang<L> {
    ghost use Rattle.fsa.specs.Complete.{Complete, IsComplete};
    ghost use Rattle.fsa_minimal.specs.Fewest.{HasFewest};

    ghost Value = { Complete L };

    ghost view = { λ lang. lang.dfa };

    ghost invariant = { λ lang. IsComplete lang.dfa × HasFewest lang.dfa };
}

impl<L: Letter> Lang<L> {
    /// The language of an automaton, over these letters, among which are all that its edges carry.
    pub fn of(alloc: Global, letters: &[L], a: &Fsa<L>) -> Result<Lang<L>, AllocError>
        requires distinct { IsDistinct letters.now }
        requires all { (x : L) → UsesLetter a.now x → Contains letters.now x }
        ensures { IfOk result (IsLang letters.now (language.Accepts a.now)) }
    {
        let dfa = determine(alloc, &trim(alloc, a)?, letters)?;
        Lang::of_small(alloc, &dfa)
    }

    /// The language of a complete automaton, as a small one.
    fn of_small(alloc: Global, dfa: &Dfa<L>) -> Result<Lang<L>, AllocError>
        ensures { IfOk result (IsLang dfa.now.letters (Accepts dfa.now)) }
    {
        let small = minimal(alloc, dfa)?;
        Ok(Lang::of_dfa(small))
    }

    /// The language of a complete automaton that has the fewest states.
    fn of_dfa(dfa: Dfa<L>) -> Lang<L>
        requires { HasFewest dfa }
        ensures same { result ≡ dfa }
        ensures complete { IsComplete result }
    {
        prove!(dfa.states() > 0);
        Lang { dfa }
    }

    /// The letters, in their order.
    pub fn letters(&self) -> &[L]
        ensures letters { result.now ≡ self.now.letters }
        ensures complete { IsComplete self.now }
    {
        self.dfa.letters()
    }

    /// The number of states of the smallest complete automaton of the language over its letters.
    pub fn states(&self) -> usize
        ensures { IsFewestCount self.now.letters (Accepts self.now) result }
    {
        self.dfa.states()
    }

    /// Whether the empty word is in the language.
    pub fn has_empty(&self) -> bool
        ensures { IsTrue result ↔ Accepts self.now [] }
    {
        self.dfa.is_final(0)
    }

    /// Whether a word over the letters is in the language.
    pub fn accepts(&self, word: &[L]) -> bool
        requires { IsOver self.now.letters word.now }
        ensures { IsTrue result ↔ Accepts self.now word.now }
    {
        self.dfa.accepts(word)
    }

    /// An automaton of the language, without epsilon edges. Its edges enter only states from which a final one is
    /// reached.
    pub fn to_fsa(&self, alloc: Global) -> Result<Fsa<L>, AllocError>
        ensures letters { IfOk result (λ m. (x : L) → UsesLetter m x → Contains self.now.letters x) }
        ensures epsilon { IfOk result HasNoEpsilonEdge }
        ensures language { IfOk result (λ m. (w : List L) → language.Accepts m w ↔ Accepts self.now w) }
    {
        trim(alloc, &self.dfa.to_fsa(alloc)?)
    }

    /// The words that are a word of this language and then one of the other. The languages have the same letters.
    pub fn concat(&self, alloc: Global, other: &Lang<L>) -> Result<Lang<L>, AllocError>
        requires { other.now.letters ≡ self.now.letters }
        ensures { IfOk result (IsLang self.now.letters (IsConcatenation (Accepts self.now) (Accepts other.now))) }
    {
        let joined = fsa_rational::concat(alloc, &self.to_fsa(alloc)?, &other.to_fsa(alloc)?)?;
        Lang::of(alloc, self.letters(), &joined)
    }

    /// The words of either language. The languages have the same letters.
    pub fn union(&self, alloc: Global, other: &Lang<L>) -> Result<Lang<L>, AllocError>
        requires { other.now.letters ≡ self.now.letters }
        ensures { IfOk result (IsLang self.now.letters (λ w. Accepts self.now w ⊎ Accepts other.now w)) }
    {
        let either = fsa_rational::union(alloc, &self.to_fsa(alloc)?, &other.to_fsa(alloc)?)?;
        Lang::of(alloc, self.letters(), &either)
    }

    /// The words that are in both languages. The languages have the same letters.
    pub fn both(&self, alloc: Global, other: &Lang<L>) -> Result<Lang<L>, AllocError>
        requires { other.now.letters ≡ self.now.letters }
        ensures { IfOk result (IsLang self.now.letters (λ w. Accepts self.now w × Accepts other.now w)) }
    {
        let dfa = fsa_product::both(alloc, &self.dfa, &other.dfa)?;
        Lang::of_small(alloc, &dfa)
    }

    /// The words of this language that aren't in the other. The languages have the same letters.
    pub fn minus(&self, alloc: Global, other: &Lang<L>) -> Result<Lang<L>, AllocError>
        requires { other.now.letters ≡ self.now.letters }
        ensures { IfOk result (IsLang self.now.letters (λ w. Accepts self.now w × ¬ Accepts other.now w)) }
    {
        let dfa = fsa_product::minus(alloc, &self.dfa, &other.dfa)?;
        Lang::of_small(alloc, &dfa)
    }

    /// The words that join any number of words of the language, the empty word among them.
    pub fn star(&self, alloc: Global) -> Result<Lang<L>, AllocError>
        ensures { IfOk result (IsLang self.now.letters (IsRepetition (Accepts self.now))) }
    {
        let repeated = fsa_rational::star(alloc, &self.to_fsa(alloc)?)?;
        Lang::of(alloc, self.letters(), &repeated)
    }

    /// The words over the letters that aren't in the language. The automaton has the same states.
    pub fn complement(&self, alloc: Global) -> Result<Lang<L>, AllocError>
        ensures { IfOk result (IsLang self.now.letters (λ w. IsOver self.now.letters w × ¬ Accepts self.now w)) }
    {
        let dfa = fsa_product::complement(alloc, &self.dfa)?;
        Ok(Lang::of_dfa(dfa))
    }

    /// The words of the language read backwards.
    pub fn reverse(&self, alloc: Global) -> Result<Lang<L>, AllocError>
        ensures { IfOk result (IsLang self.now.letters (λ w. Accepts self.now (reverse w))) }
    {
        let turned = fsa_rational::reverse(alloc, &self.to_fsa(alloc)?)?;
        Lang::of(alloc, self.letters(), &turned)
    }

    /// The words of one letter that aren't in the language.
    pub fn not_one(&self, alloc: Global) -> Result<Lang<L>, AllocError>
        ensures { IfOk result (IsLang self.now.letters (λ w. IsOneLetter self.now.letters w × ¬ Accepts self.now w)) }
    {
        let letters = self.letters();
        let one = Lang::of(alloc, letters, &one_letter(alloc, letters)?)?;
        one.minus(alloc, self)
    }

    /// The words over the letters of which some part, from one place to another, is in the language.
    pub fn contains(&self, alloc: Global) -> Result<Lang<L>, AllocError>
        ensures { IfOk result (IsLang self.now.letters (λ w. IsOver self.now.letters w × HasPart (Accepts self.now) w)) }
    {
        let letters = self.letters();
        let any = fsa_rational::star(alloc, &one_letter(alloc, letters)?)?;
        let behind = fsa_rational::concat(alloc, &self.to_fsa(alloc)?, &any)?;
        Lang::of(alloc, letters, &fsa_rational::concat(alloc, &any, &behind)?)
    }

    /// The words of this language with words of the other put in: before the first letter, between any two and
    /// behind the last, any number of words at each place. The languages have the same letters.
    pub fn ignore(&self, alloc: Global, other: &Lang<L>) -> Result<Lang<L>, AllocError>
        requires { other.now.letters ≡ self.now.letters }
        ensures { IfOk result (IsLang self.now.letters (IsIgnoring (Accepts self.now) (Accepts other.now))) }
    {
        let mixed = fsa_rational::ignore(alloc, &self.to_fsa(alloc)?, &other.to_fsa(alloc)?)?;
        Lang::of(alloc, self.letters(), &mixed)
    }
}
