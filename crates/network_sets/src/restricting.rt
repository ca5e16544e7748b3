ghost use Rattle.std.specs.Prelude.{◌≡◌, ◌↔◌, ◌⊎◌, IfOk, List, [], ◌∷◌, ◌++◌};
ghost use Rattle.fsm_base.specs.declared.letters.Sym.{Sym};
ghost use Rattle.fsm_base.specs.declared.letters.Bound.{Bound};
ghost use Rattle.fsm_base.specs.declared.letters.Bound.TheVariants.{Edge};
ghost use Rattle.word_relations.specs.Words.{IsDistinct, IsOver};
ghost use Rattle.fsa.specs.Language.{Accepts};
ghost use Rattle.expr_meaning.specs.Operators.{HasPrefix, HasSuffix, inner};
ghost use Rattle.network_algebra.specs.Networks.{UsesOnly, all_letters};
ghost use Rattle.network_sets.specs.Split.{IsPlace, split, split_letters};
ghost use Rattle.network_sets.specs.declared.parts.Split.{Split};

use crate::parts::{Split, every_split_letter, kept_rows, split_words};
use fsa::Fsa;
use fsa_rational::{concat, image, star};
use fsm_base::{Bound, Sym};
use lang_algebra::{Lang, one_letter};
use network_algebra::{every_letter, inner_letters, inside, with_edge, word};
use std::alloc::{AllocError, Global};

/// The split words in whose first part a left context has an end and in whose last part a right context has a
/// beginning.
pub fn in_context(
    alloc: Global,
    symbols: &[Sym],
    left: &Fsa<Bound<Sym>>,
    right: &Fsa<Bound<Sym>>,
) -> Result<Fsa<Split>, AllocError>
    requires left { UsesOnly (all_letters symbols.now) left.now }
    requires right { UsesOnly (all_letters symbols.now) right.now }
    ensures letters { IfOk result (UsesOnly (split_letters symbols.now)) }
    ensures words { IfOk result (λ m. (before part behind : List (Bound Sym)) → IsOver (all_letters symbols.now) before → IsOver (all_letters symbols.now) part → IsOver (all_letters symbols.now) behind
        → Accepts m (split before part behind) ↔ (HasSuffix (Accepts left.now) before × HasPrefix (Accepts right.now) behind)) }
{
    let any = any_of(alloc, &every_letter(alloc, symbols)?)?;
    let before = concat(alloc, &any, left)?;
    let behind = concat(alloc, right, &any)?;
    split_words(alloc, &before, &any, &behind)
}

/// All words over these letters.
fn any_of(alloc: Global, letters: &[Bound<Sym>]) -> Result<Fsa<Bound<Sym>>, AllocError>
    ensures letters { IfOk result (UsesOnly letters.now) }
    ensures words { IfOk result (λ m. (w : List (Bound Sym)) → Accepts m w ↔ IsOver letters.now w) }
{
    star(alloc, &one_letter(alloc, letters)?)
}

/// The words over an alphabet, each split round a part that is in the language, with the edge before and behind.
fn places(
    alloc: Global,
    symbols: &[Sym],
    centre: &Fsa<Bound<Sym>>,
) -> Result<Fsa<Split>, AllocError>
    requires { UsesOnly (all_letters symbols.now) centre.now }
    ensures letters { IfOk result (UsesOnly (split_letters symbols.now)) }
    ensures words { IfOk result (λ m. (v : List Split) → Accepts m v ↔ IsPlace symbols.now (Accepts centre.now) v) }
{
    let any = any_of(alloc, &inner_letters(alloc, symbols)?)?;
    let edge = word(alloc, &[Bound::Edge])?;
    let part = with_edge(alloc, &inside(alloc, centre)?)?;
    split_words(
        alloc,
        &concat(alloc, &edge, &any)?,
        &part,
        &concat(alloc, &any, &edge)?,
    )
}

/// The places that aren't allowed.
fn wrong_places(
    alloc: Global,
    symbols: &[Sym],
    places: &Fsa<Split>,
    allowed: &Fsa<Split>,
) -> Result<Fsa<Split>, AllocError>
    requires distinct { IsDistinct symbols.now }
    requires places { UsesOnly (split_letters symbols.now) places.now }
    requires allowed { UsesOnly (split_letters symbols.now) allowed.now }
    ensures words { IfOk result (λ m. (v : List Split) → Accepts m v ↔ (Accepts places.now v × ¬ Accepts allowed.now v)) }
    ensures each { IfOk result (λ m. (v : List Split) → Accepts places.now v → Accepts allowed.now v ⊎ Accepts m v) }
{
    let letters = every_split_letter(alloc, symbols)?;
    let places = Lang::of(alloc, &letters, places)?;
    let allowed = Lang::of(alloc, &letters, allowed)?;
    places.minus(alloc, &allowed)?.to_fsa(alloc)
}

/// The words over an alphabet each of whose parts in the language of the centre stands at an allowed place.
pub fn restrict(
    alloc: Global,
    symbols: &[Sym],
    centre: &Fsa<Bound<Sym>>,
    allowed: &Fsa<Split>,
) -> Result<Fsa<Bound<Sym>>, AllocError>
    requires distinct { IsDistinct symbols.now }
    requires centre { UsesOnly (all_letters symbols.now) centre.now }
    requires allowed { UsesOnly (split_letters symbols.now) allowed.now }
    ensures letters { IfOk result (UsesOnly (all_letters symbols.now)) }
    ensures words { IfOk result (λ m. (w : List (Bound Sym)) → Accepts m w
        ↔ (IsOver (inner symbols.now) w × ((x y z : List (Bound Sym)) → w ≡ x ++ (y ++ z) → Accepts centre.now y → Accepts allowed.now (split (Edge ∷ x) y (z ++ Edge ∷ []))))) }
{
    let wrong = wrong_places(alloc, symbols, &places(alloc, symbols, centre)?, allowed)?;
    let rows = kept_rows(alloc, &every_split_letter(alloc, symbols)?)?;
    let words = image(alloc, &wrong, &rows)?;
    let letters = inner_letters(alloc, symbols)?;
    Lang::of(alloc, &letters, &words)?
        .complement(alloc)?
        .to_fsa(alloc)
}
