ghost use Rattle.std.specs.Prelude.{◌≡◌, ◌↔◌, ℕ, IfOk, List, Some, slice_get};
ghost use Rattle.fsm_base.specs.declared.letters.Sym.{Sym};
ghost use Rattle.word_relations.specs.Words.{IsDistinct, IsOver};
ghost use Rattle.fsa.specs.Complete as complete;
ghost use Rattle.fsa.specs.Language.{Accepts};
ghost use Rattle.lang_algebra.specs.Languages.{IsLang};
ghost use Rattle.replace_words.specs.Marked.{IsKept, LeavesNone};
ghost use Rattle.replace_rules.specs.Places.{HasCentreIn, Place, rules_by};

use crate::constraints::{kept_between, leaves_none};
use crate::langs::over;
use crate::places::Place;
use crate::rules::LangMap;
use fsa::Fsa;
use fsa_rational::union;
use fsm_base::{Bound, Sym};
use lang_algebra::Lang;
use replace_words::Mark;
use std::alloc::{AllocError, Global};

/// Those of the words of an automaton that keep what the rules ask at each of the places.
pub fn kept_words(
    alloc: Global,
    marks: &[Bound<Mark>],
    optional: bool,
    places: &[Place],
    words: &Fsa<Bound<Mark>>,
) -> Result<Lang<Bound<Mark>>, AllocError>
    requires { IsDistinct marks.now }
    ensures { IfOk result (IsLang marks.now (λ w. (IsOver marks.now w × Accepts words.now w) × ((k : ℕ) (p : Place) → slice_get places.now k ≡ Some p → IsKept rules_by optional k p w))) }
{
    let mut kept = over(alloc, marks, words)?;
    for (number, place) in places.iter().enumerate() {
        kept = kept_at(alloc, optional, number, place, &kept)?;
    }
    Ok(kept)
}

/// Those of the words that keep what the rules ask at the place of this number.
fn kept_at(
    alloc: Global,
    optional: bool,
    number: usize,
    place: &Place,
    words: &Lang<Bound<Mark>>,
) -> Result<Lang<Bound<Mark>>, AllocError>
    ensures { IfOk result (IsLang words.now.letters (λ w. complete.Accepts words.now w × IsKept rules_by optional number place.now w)) }
{
    let marks = words.letters();
    let left = place.left(alloc, marks)?;
    let right = place.right(alloc, marks)?;
    let kept = kept_between(alloc, number, words, &left, &right)?;
    if optional {
        return Ok(kept);
    }
    without_centres(alloc, place.maps(), &kept, &left, &right)
}

/// Those of the words in which no centre of the mappings stands in copied symbols behind a word of the one language and before one
/// of the other.
fn without_centres(
    alloc: Global,
    maps: &[LangMap],
    words: &Lang<Bound<Mark>>,
    left: &Lang<Bound<Mark>>,
    right: &Lang<Bound<Mark>>,
) -> Result<Lang<Bound<Mark>>, AllocError>
    requires left { left.now.letters ≡ words.now.letters }
    requires right { right.now.letters ≡ words.now.letters }
    ensures { IfOk result (IsLang words.now.letters (λ w. complete.Accepts words.now w × LeavesNone (HasCentreIn maps.now) (complete.Accepts left.now) (complete.Accepts right.now) w)) }
{
    let centre = centres(alloc, maps)?;
    let whole = leaves_none(alloc, left, &centre, right)?;
    words.both(alloc, &whole)
}

/// The words of all centres.
fn centres(alloc: Global, maps: &[LangMap]) -> Result<Fsa<Sym>, AllocError>
    ensures { IfOk result (λ m. (c : List Sym) → Accepts m c ↔ HasCentreIn maps.now c) }
{
    let mut all = Fsa::new(alloc)?;
    for map in maps {
        let more = map.centre.to_fsa(alloc)?;
        all = union(alloc, &all, &more)?;
    }
    Ok(all)
}
