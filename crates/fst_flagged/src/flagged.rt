ghost use Rattle.std.specs.Prelude.{◌≡◌, ◌<◌, ◌↔◌, IfOk, List, length};
ghost use Rattle.word_relations.specs.Relations.{AreSame, IsInverse};
ghost use Rattle.fsm_base.specs.declared.letters.Pair.{Pair};
ghost use Rattle.fsm_base.specs.declared.letters.Sym.{Sym};
ghost use Rattle.fsa.specs.Automaton.{UsesLetter};
ghost use Rattle.fsa.specs.Language.{Accepts};
ghost use Rattle.fst_algebra.specs.Relation.{IsRelated};
ghost use Rattle.fst_algebra.specs.Relations.{UsesLower};
ghost use Rattle.fst_flagged.specs.Conditions.{Hold, first, letters_of};
ghost use Rattle.fst_flagged.specs.Flagged.{FlaggedRelates, UsesLetters};

use crate::composing::turned;
use crate::condition::{Condition, copied};
use crate::images::MovedBelow;
use fsa::Fsa;
use fsa_reduce::ends_merged;
use fsa_subset::determine_within;
use fsm_base::Pair;
use fst_algebra::substituted;
use std::alloc::{AllocError, Global};
use std::marker::Model;

/// A transducer on whose upper side conditions stand among the symbols. It relates the sides of the paths whose conditions hold, without
/// these. Contracts see the transducer and the list of the conditions, in which a symbol from [`crate::FIRST`] on has its place.
#[derive(Debug, Drop)]
pub struct Flagged {
    /// The transducer.
    pub(crate) net: Fsa<Pair>,
    /// The conditions.
    pub(crate) conditions: Vec<Condition>,
}

impl Model for Flagged {
    ghost use Rattle.fst_flagged.specs.Flagged.{FlaggedView, StandApart};

    ghost Value = { FlaggedView };

    ghost view = { λ flagged. record { net = flagged.net; conditions = flagged.conditions.items } };

    ghost invariant = { λ flagged. StandApart (record { net = flagged.net; conditions = flagged.conditions.items }) };
}

impl Flagged {
    /// The transducer with its conditions on the upper side.
    pub fn net(&self) -> &Fsa<Pair>
        ensures { result.now ≡ self.now.net }
    {
        &self.net
    }

    /// The conditions, each at the place that its symbol says.
    pub fn conditions(&self) -> &[Condition]
        ensures { result.now ≡ self.now.conditions }
    {
        self.conditions.as_slice()
    }

    /// How many states the transducer has.
    pub fn states(&self) -> usize
        ensures { result ≡ length self.now.net.finals }
    {
        self.net.states()
    }

    /// The transducer with its conditions moved to the lower side, in the same order along each path.
    pub fn with_conditions_below(&self, alloc: Global) -> Result<Fsa<Pair>, AllocError>
        ensures letters { IfOk result (λ m. (x : Sym) → UsesLower m x → x.0 < first → UsesLower self.now.net x) }
        ensures relation { IfOk result (λ m. (u w : List Sym) → FlaggedRelates self.now u w ↔ ((y : List Sym) × IsRelated m u y × Hold self.now.conditions y × (letters_of y ≡ w))) }
    {
        substituted(alloc, &self.net, &MovedBelow)
    }

    /// The same with the sides exchanged. Conditions stay where they are.
    pub fn inverse(self, alloc: Global) -> Result<Flagged, AllocError>
        ensures letters { IfOk result (λ f. (symbols : List Sym) → UsesLetters symbols self → UsesLetters symbols f) }
        ensures relation { IfOk result (λ f. AreSame (FlaggedRelates f) (IsInverse (FlaggedRelates self))) }
    {
        turned(alloc, &self)
    }

    /// A smaller one that relates the same.
    pub fn reduced(&self, alloc: Global) -> Result<Flagged, AllocError>
        ensures letters { IfOk result (λ f. (symbols : List Sym) → UsesLetters symbols self.now → UsesLetters symbols f) }
        ensures relation { IfOk result (λ f. AreSame (FlaggedRelates f) (FlaggedRelates self.now)) }
    {
        let net = small(alloc, &self.net)?;
        let conditions = copied(alloc, self.conditions.as_slice())?;
        Ok(Flagged { net, conditions })
    }
}

/// How many steps may be taken for each edge, so that the work stays in proportion to the transducer's size.
const STEPS_FOR_AN_EDGE: usize = 16;

/// How many steps may be taken at least, so that each small transducer is made deterministic.
const STEPS: usize = 65_536;

/// A smaller transducer that accepts the same lists of pairs: common ends become one, then common beginnings, as far as that takes few steps,
/// and what goes on alike behind that.
fn small(alloc: Global, net: &Fsa<Pair>) -> Result<Fsa<Pair>, AllocError>
    ensures letters { IfOk result (λ m. (pair : Pair) → UsesLetter m pair → UsesLetter net.now pair) }
    ensures language { IfOk result (λ m. (pairs : List Pair) → Accepts m pairs ↔ Accepts net.now pairs) }
{
    let merged = ends_merged(alloc, net)?;
    let steps = merged
        .edges()
        .len()
        .saturating_mul(STEPS_FOR_AN_EDGE)
        .saturating_add(STEPS);
    let Some(straight) = determine_within(alloc, &merged, steps)? else {
        return fsa_reduce::reduced(alloc, &merged);
    };
    let small = fsa_reduce::reduced(alloc, &straight)?;
    Ok(small)
}
