ghost use Rattle.std.specs.Prelude.{◌↔◌, Some, None, IfOk, List};
ghost use Rattle.word_relations.specs.Relations.{AreSame, IsIdentity, IsCross, IsInverse, IsUpper, IsLower};
ghost use Rattle.fsm_base.specs.declared.letters.Sym.{Sym};
ghost use Rattle.fsa.specs.Automaton.{UsesLetter};
ghost use Rattle.fsa.specs.Language.{Accepts};
ghost use Rattle.fst_algebra.specs.Relation.{IsRelated};
ghost use Rattle.fst_algebra.specs.Relations.{UsesUpper, UsesLower};
ghost use Rattle.fst_algebra.specs.Substituted.{letter_or_epsilon};
ghost use Rattle.fst_algebra.specs.declared.substitution.Image.TheVariants.{Letter};

use crate::substitution::{Image, Substitution, letter_or_epsilon, substituted};
use fsa::Fsa;
use fsa_rational::concat;
use fsm_base::{Pair, Sym};
use std::alloc::{AllocError, Global};

/// The transducer that relates each word of `a` to itself.
pub fn identity(alloc: Global, a: &Fsa<Sym>) -> Result<Fsa<Pair>, AllocError>
    ensures upper { IfOk result (λ m. (x : Sym) → UsesUpper m x → UsesLetter a.now x) }
    ensures lower { IfOk result (λ m. (x : Sym) → UsesLower m x → UsesLetter a.now x) }
    ensures relation { IfOk result (λ m. AreSame (IsRelated m) (IsIdentity (Accepts a.now))) }
{
    substituted(alloc, a, &OnBothSides)
}

/// The transducer that relates each word of `a` to each word of `b`.
pub fn cross(alloc: Global, a: &Fsa<Sym>, b: &Fsa<Sym>) -> Result<Fsa<Pair>, AllocError>
    ensures upper { IfOk result (λ m. (x : Sym) → UsesUpper m x → UsesLetter a.now x) }
    ensures lower { IfOk result (λ m. (x : Sym) → UsesLower m x → UsesLetter b.now x) }
    ensures relation { IfOk result (λ m. AreSame (IsRelated m) (IsCross (Accepts a.now) (Accepts b.now))) }
{
    let above = substituted(alloc, a, &OnUpperSide)?;
    let below = substituted(alloc, b, &OnLowerSide)?;
    concat(alloc, &above, &below)
}

/// The transducer that relates u to w where `r` relates w to u.
pub fn inverse(alloc: Global, r: &Fsa<Pair>) -> Result<Fsa<Pair>, AllocError>
    ensures upper { IfOk result (λ m. (x : Sym) → UsesUpper m x → UsesLower r.now x) }
    ensures lower { IfOk result (λ m. (x : Sym) → UsesLower m x → UsesUpper r.now x) }
    ensures relation { IfOk result (λ m. AreSame (IsRelated m) (IsInverse (IsRelated r.now))) }
{
    substituted(alloc, r, &Exchanged)
}

/// The automaton of the words that `r` relates to some lower word.
pub fn upper(alloc: Global, r: &Fsa<Pair>) -> Result<Fsa<Sym>, AllocError>
    ensures letters { IfOk result (λ m. (x : Sym) → UsesLetter m x → UsesUpper r.now x) }
    ensures language { IfOk result (λ m. (w : List Sym) → Accepts m w ↔ IsUpper (IsRelated r.now) w) }
{
    substituted(alloc, r, &UpperSide)
}

/// The automaton of the words to which `r` relates some upper word.
pub fn lower(alloc: Global, r: &Fsa<Pair>) -> Result<Fsa<Sym>, AllocError>
    ensures letters { IfOk result (λ m. (x : Sym) → UsesLetter m x → UsesLower r.now x) }
    ensures language { IfOk result (λ m. (w : List Sym) → Accepts m w ↔ IsLower (IsRelated r.now) w) }
{
    substituted(alloc, r, &LowerSide)
}

/// A symbol, on both sides.
struct OnBothSides;

impl Substitution<Sym, Pair> for OnBothSides {
    ghost image = { λ _ x. Letter (record { up = Some x; low = Some x }) };

    fn image_of(&self, symbol: Sym) -> Image<Pair> {
        Image::Letter(Pair {
            up: Some(symbol),
            low: Some(symbol),
        })
    }
}

/// A symbol, on the upper side alone.
struct OnUpperSide;

impl Substitution<Sym, Pair> for OnUpperSide {
    ghost image = { λ _ x. Letter (record { up = Some x; low = None }) };

    fn image_of(&self, symbol: Sym) -> Image<Pair> {
        Image::Letter(Pair {
            up: Some(symbol),
            low: None,
        })
    }
}

/// A symbol, on the lower side alone.
struct OnLowerSide;

impl Substitution<Sym, Pair> for OnLowerSide {
    ghost image = { λ _ x. Letter (record { up = None; low = Some x }) };

    fn image_of(&self, symbol: Sym) -> Image<Pair> {
        Image::Letter(Pair {
            up: None,
            low: Some(symbol),
        })
    }
}

/// A pair with its sides exchanged.
struct Exchanged;

impl Substitution<Pair, Pair> for Exchanged {
    ghost image = { λ _ pair. Letter (record { up = pair.low; low = pair.up }) };

    fn image_of(&self, pair: Pair) -> Image<Pair> {
        Image::Letter(Pair {
            up: pair.low,
            low: pair.up,
        })
    }
}

/// The symbol on the upper side of a pair, where there is one.
struct UpperSide;

impl Substitution<Pair, Sym> for UpperSide {
    ghost image = { λ _ pair. letter_or_epsilon pair.up };

    fn image_of(&self, pair: Pair) -> Image<Sym> {
        letter_or_epsilon(pair.up)
    }
}

/// The symbol on the lower side of a pair, where there is one.
struct LowerSide;

impl Substitution<Pair, Sym> for LowerSide {
    ghost image = { λ _ pair. letter_or_epsilon pair.low };

    fn image_of(&self, pair: Pair) -> Image<Sym> {
        letter_or_epsilon(pair.low)
    }
}
