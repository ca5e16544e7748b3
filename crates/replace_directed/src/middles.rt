ghost use Rattle.std.specs.Prelude.{◌≡◌, ◌↔◌, IfOk, List};
ghost use Rattle.std.specs.List.{filter_map};
ghost use Rattle.fsm_base.specs.declared.letters.Sym.{Sym};
ghost use Rattle.word_relations.specs.Words.{IsDistinct, IsOver};
ghost use Rattle.fsa.specs.Language.{Accepts};
ghost use Rattle.lang_algebra.specs.Languages.{IsLang};
ghost use Rattle.replace_rules.specs.Rules.{HasCentre};
ghost use Rattle.replace_directed.specs.Marked.{IsCentre, upper_row};

use fsa::Fsa;
use fsa_rational::{preimage, union};
use fsm_base::{Bound, Sym};
use lang_algebra::Lang;
use replace_rules::{LangMap, over};
use replace_words::Mark;
use std::alloc::{AllocError, Global};

/// The words of marks of which the upper side is a centre.
pub fn centre_words(
    alloc: Global,
    marks: &[Bound<Mark>],
    maps: &[LangMap],
) -> Result<Lang<Bound<Mark>>, AllocError>
    requires { IsDistinct marks.now }
    ensures { IfOk result (IsLang marks.now (λ w. IsOver marks.now w × IsCentre maps.now w)) }
{
    let rows = upper_rows(alloc, marks)?;
    let words = centres(alloc, maps)?;
    let upper = preimage(alloc, &words, &rows)?;
    over(alloc, marks, &upper)
}

/// The table of the symbols of the upper side of marks, without the edge.
fn upper_rows(
    alloc: Global,
    marks: &[Bound<Mark>],
) -> Result<Vec<(Bound<Mark>, Option<Sym>)>, AllocError>
    ensures { IfOk result (λ rows. rows.items ≡ filter_map upper_row marks.now) }
{
    let mut rows = Vec::new(alloc);
    for mark in marks {
        if let Bound::Inner(inside) = *mark {
            rows.push((*mark, inside.upper()))?;
        }
    }
    Ok(rows)
}

/// The words of all centres.
fn centres(alloc: Global, maps: &[LangMap]) -> Result<Fsa<Sym>, AllocError>
    ensures { IfOk result (λ m. (c : List Sym) → Accepts m c ↔ HasCentre maps.now c) }
{
    let mut all = Fsa::new(alloc)?;
    for map in maps {
        let more = map.centre.to_fsa(alloc)?;
        all = union(alloc, &all, &more)?;
    }
    Ok(all)
}
