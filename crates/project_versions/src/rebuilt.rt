ghost use Rattle.std.specs.Prelude.{◌<◌, All, IfOk, length, map};
ghost use Rattle.std.specs.Cmp.Lexicographic.{slice_cmp};
ghost use Rattle.std.specs.List.Sorted.{IsPermutation, IsSorted};
ghost use Rattle.std.specs.Ordering.{nat_cmp};
ghost use Rattle.project_sources.specs.Sources.{Said, project_in};
ghost use Rattle.project_store.specs.Loaded.{IsLoadedFrom};
ghost use Rattle.project_versions.specs.Rebuilt.{name_at};
ghost use Rattle.touched_names.specs.Touched.{AreTouched};

use fsm_base::Text;
use project_definitions::Definition;
use project_store::Project;
use std::alloc::{AllocError, Global};
use touched_names::{Stand, touched};

/// The names of the definitions at places, in the order of their bytes. A place without definition has none.
pub fn names_at(
    alloc: Global,
    definitions: &[Definition],
    places: &[usize],
) -> Result<Vec<Text>, AllocError>
    ensures moved { All (λ place. place < length definitions.now) places.now → IfOk result (λ names. IsPermutation (map (name_at definitions.now) places.now) names.items) }
    ensures sorted { IfOk result (λ names. IsSorted (slice_cmp nat_cmp) names.items) }
{
    let mut names = Vec::new(alloc);
    'places: for place in places {
        if let Some(definition) = definitions.get(*place) {
            names.push(definition.name.clone()?)?;
        }
    }
    names.sort()?;
    Ok(names)
}

/// The places of the definitions of a new project whose names are touched since an old one, counted from 0 and ascending.
pub fn touched_places(alloc: Global, old: &Project, new: &Project) -> Result<Vec<usize>, AllocError>
    ensures { (was is : Said) → IsLoadedFrom was old.now → IsLoadedFrom is new.now → IfOk result (λ places. AreTouched (project_in was) (project_in is) new.now.definitions places.items) }
{
    let before = old.plan();
    let plan = new.plan();
    let stood = Stand {
        definitions: before.definitions(),
        alphabet: old.alphabet(),
    };
    let stands = Stand {
        definitions: plan.definitions(),
        alphabet: new.alphabet(),
    };
    touched(alloc, stood, stands, plan.order())
}
