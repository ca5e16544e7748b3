ghost use Rattle.std.specs.Prelude.{◌≡◌, None, is_some};
ghost use Rattle.std.specs.Option.{option_map};

use crate::held::Held;
use crate::loose::Loose;
use crate::slot::Slot;
use std::alloc::Global;
use std::mem::replace;

/// A project as C holds it.
#[repr(C)]
pub struct MorphProject {
    /// Whether it has a value.
    is_there: bool,
    /// Its value.
    pub slot: Slot,
    ghost told: { is_there ≡ is_some slot.value },
}

impl MorphProject {
    /// One that has no value.
    pub(crate) fn none() -> MorphProject
        ensures { result.slot.value ≡ None }
    {
        MorphProject {
            is_there: false,
            slot: Slot::none(),
        }
    }

    /// One that has this value, or none.
    fn of(held: Option<Box<Held>>) -> MorphProject
        ensures { result.slot.value ≡ option_map (λ held. held.value) held }
    {
        match held {
            Some(held) => MorphProject {
                is_there: true,
                slot: Slot::of(Loose::of(held)),
            },
            None => MorphProject::none(),
        }
    }

    /// The value, if it has one.
    fn into_held(self, alloc: Global) -> Option<Box<Held>>
        ensures { self.slot.value ≡ option_map (λ held. held.value) result }
    {
        let MorphProject { is_there, slot } = self;
        if is_there {
            Some(slot.into_loose(alloc).into_box())
        } else {
            slot.discard();
            None
        }
    }
}

/// Takes the value of a project, which has none then.
pub(crate) fn taken(alloc: Global, project: &mut MorphProject) -> Option<Box<Held>>
    ensures taken { project.old.slot.value ≡ option_map (λ held. held.value) result }
    ensures none { project.new.slot.value ≡ None }
{
    replace(project, MorphProject::none()).into_held(alloc)
}

/// Gives a project this value, or none. That which it has is let go.
pub(crate) fn put_back(alloc: Global, project: &mut MorphProject, held: Option<Box<Held>>)
    ensures { project.new.slot.value ≡ option_map (λ held. held.value) held }
{
    let before = replace(project, MorphProject::of(held)).into_held(alloc);
    drop(before);
}
