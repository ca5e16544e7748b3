ghost use Rattle.std.specs.Prelude.{◌≡◌, ◌<◌, ◌+◌, ◌*◌, ℕ, All, IfOk, OnOk, length};
ghost use Rattle.word_relations.specs.Words.{IsDistinct};

use fsa::Dfa;
use fsa_minimal::minimal;
use fsa_product::both;
use fsm_base::Sym;
use std::alloc::{AllocError, Global};

/// How many restrictions are intersected.
const RULES: u32 = 20;

/// How many states the automaton of a restriction has.
const STATES: usize = 4;

/// The words of so many letters, whichever they are, so that all letters act alike. There is a state for each length so
/// far, and one for those that are too long.
pub fn words_of_length(
    alloc: Global,
    letters: Vec<Sym>,
    length: usize,
) -> Result<Dfa<Sym>, AllocError>
    requires { IsDistinct letters.items }
{
    let mut finals = vec![in alloc; false; length]?;
    finals.push(true)?;
    finals.push(false)?;
    let mut next = Vec::new(alloc);
    'states: for state in 0..finals.len() {
        let longer = if state <= length { state + 1 } else { state };
        next.extend_from_slice(&vec![in alloc; longer; letters.len()]?)?;
    }
    Ok(Dfa::of(letters, next, finals))
}

/// A restriction: the centre stands only behind the letter on its left, or before the one on its right.
#[derive(Clone, Copy, Debug)]
struct Rule {
    /// The letter that is restricted.
    centre: Sym,
    /// The letter behind which it may stand.
    left: Sym,
    /// The letter before which it may stand.
    right: Sym,
}

impl Rule {
    /// Where a letter leads: from and to the start, 0; from behind the letter on the left, 1; from behind a centre that
    /// needs the letter on the right, 2; or from where the rule is broken, 3.
    fn next(self, state: usize, letter: Sym) -> usize
        ensures { result < STATES }
    {
        if state == 3 || (state == 2 && letter != self.right) {
            3
        } else if letter == self.left {
            1
        } else if letter == self.centre && state != 1 {
            2
        } else {
            0
        }
    }

    /// Adds where each letter leads from a state.
    fn add_row(self, state: usize, letters: &[Sym], next: &mut Vec<usize>) -> Result<(), AllocError>
        requires { All (λ to. to < STATES) next.old.items }
        ensures count { OnOk result (length next.new.items ≡ length next.old.items + length letters.now) }
        ensures within { OnOk result (All (λ to. to < STATES) next.new.items) }
    {
        'letters: for letter in letters {
            next.push(self.next(state, *letter))?;
        }
        Ok(())
    }

    /// The words that keep the rule.
    fn words(self, alloc: Global, letters: &[Sym]) -> Result<Dfa<Sym>, AllocError>
        requires { IsDistinct letters.now }
        ensures { IfOk result (λ d. d.letters ≡ letters.now) }
    {
        let mut next = Vec::new(alloc);
        'states: for state in 0..STATES {
            self.add_row(state, letters, &mut next)?;
        }
        let finals = Vec::from_array(alloc, [true, true, false, false])?;
        Ok(Dfa::of(Vec::from_slice(alloc, letters)?, next, finals))
    }
}

/// The words that keep twenty restrictions, each of the letter with its number by those with 20 and 40 more. The
/// automaton is made small after each rule.
pub fn words_by_rules(alloc: Global, letters: &[Sym]) -> Result<Dfa<Sym>, AllocError>
    requires { IsDistinct letters.now }
{
    let mut all = every_word(alloc, letters)?;
    'rules: for number in 0..RULES {
        let rule = Rule {
            centre: Sym(number),
            left: Sym(number + RULES),
            right: Sym(number + 2 * RULES),
        };
        all = minimal(alloc, &both(alloc, &all, &rule.words(alloc, letters)?)?)?;
    }
    Ok(all)
}

/// All words over the letters.
fn every_word(alloc: Global, letters: &[Sym]) -> Result<Dfa<Sym>, AllocError>
    requires { IsDistinct letters.now }
    ensures { IfOk result (λ d. d.letters ≡ letters.now) }
{
    let next = vec![in alloc; 0; letters.len()]?;
    let finals = Vec::from_array(alloc, [true])?;
    Ok(Dfa::of(Vec::from_slice(alloc, letters)?, next, finals))
}
