ghost use Rattle.std.specs.Prelude.{◌≡◌};
ghost use Rattle.lookup_answers.specs.declared.direction.Direction.TheVariants.{Down, Up};
ghost use Rattle.morph_c.specs.Asking.{AreListed, IsCut, IsFault, IsGlossed, IsLookedUp, IsLookedUpInSaved, IsNoCut, IsNoFault, IsNoLook, IsNoLookInSaved, IsWhyNone};
ghost use Rattle.morph_c.specs.Tells.{Tells};

use crate::project::{MorphProject, put_back, taken};
use crate::replies::{cut_up, fault_in, glossed, looked_up, looked_up_in_saved, names_in};
use crate::told::{MorphReply, tell};
use lookup_answers::Direction;
use std::alloc::Global;

/// The reply to a word that is looked up upwards in a name: its analyses.
#[unsafe(no_mangle)]
pub extern "C" fn morph_up(
    alloc: Global,
    project: &mut MorphProject,
    net: &[u8],
    word: &[u8],
    out: &mut [u8],
    reply: &mut MorphReply,
) -> u32
    ensures told { Tells (IsLookedUp project.old.slot.value Up net.now word.now) (IsNoLook project.old.slot.value net.now word.now) out.old out.new reply.new result }
    ensures kept { project.new.slot.value ≡ project.old.slot.value }
{
    let held = taken(alloc, project);
    let answer = looked_up(alloc, &held, Direction::Up, net, word);
    put_back(alloc, project, held);
    tell(answer, out, reply)
}

/// The reply to a word that is looked up downwards in a name: its forms.
#[unsafe(no_mangle)]
pub extern "C" fn morph_down(
    alloc: Global,
    project: &mut MorphProject,
    net: &[u8],
    word: &[u8],
    out: &mut [u8],
    reply: &mut MorphReply,
) -> u32
    ensures told { Tells (IsLookedUp project.old.slot.value Down net.now word.now) (IsNoLook project.old.slot.value net.now word.now) out.old out.new reply.new result }
    ensures kept { project.new.slot.value ≡ project.old.slot.value }
{
    let held = taken(alloc, project);
    let answer = looked_up(alloc, &held, Direction::Down, net, word);
    put_back(alloc, project, held);
    tell(answer, out, reply)
}

/// The reply to a text whose words are looked up in a name and told in glosses.
#[unsafe(no_mangle)]
pub extern "C" fn morph_gloss(
    alloc: Global,
    project: &mut MorphProject,
    net: &[u8],
    text: &[u8],
    out: &mut [u8],
    reply: &mut MorphReply,
) -> u32
    ensures told { Tells (IsGlossed project.old.slot.value net.now text.now) (IsNoLook project.old.slot.value net.now text.now) out.old out.new reply.new result }
    ensures kept { project.new.slot.value ≡ project.old.slot.value }
{
    let held = taken(alloc, project);
    let answer = glossed(alloc, &held, net, text);
    put_back(alloc, project, held);
    tell(answer, out, reply)
}

/// The symbols of a word, or the character at which none begins.
#[unsafe(no_mangle)]
pub extern "C" fn morph_cut(
    alloc: Global,
    project: &mut MorphProject,
    word: &[u8],
    out: &mut [u8],
    reply: &mut MorphReply,
) -> u32
    ensures told { Tells (IsCut project.old.slot.value word.now) (IsNoCut project.old.slot.value word.now) out.old out.new reply.new result }
    ensures kept { project.new.slot.value ≡ project.old.slot.value }
{
    let held = taken(alloc, project);
    let answer = cut_up(alloc, &held, word);
    put_back(alloc, project, held);
    tell(answer, out, reply)
}

/// The names.
#[unsafe(no_mangle)]
pub extern "C" fn morph_names(
    alloc: Global,
    project: &mut MorphProject,
    out: &mut [u8],
    reply: &mut MorphReply,
) -> u32
    ensures told { Tells (AreListed project.old.slot.value) (IsWhyNone project.old.slot.value) out.old out.new reply.new result }
    ensures kept { project.new.slot.value ≡ project.old.slot.value }
{
    let held = taken(alloc, project);
    let answer = names_in(alloc, &held);
    put_back(alloc, project, held);
    tell(answer, out, reply)
}

/// The reply to a word that is looked up in an AT&T text: its upper words.
#[unsafe(no_mangle)]
pub extern "C" fn morph_att_up(
    alloc: Global,
    project: &mut MorphProject,
    word: &[u8],
    out: &mut [u8],
    reply: &mut MorphReply,
) -> u32
    ensures told { Tells (IsLookedUpInSaved project.old.slot.value word.now) (IsNoLookInSaved project.old.slot.value word.now) out.old out.new reply.new result }
    ensures kept { project.new.slot.value ≡ project.old.slot.value }
{
    let held = taken(alloc, project);
    let answer = looked_up_in_saved(alloc, &held, word);
    put_back(alloc, project, held);
    tell(answer, out, reply)
}

/// The first fault of the files, or of the one that was to be an AT&T text.
#[unsafe(no_mangle)]
pub extern "C" fn morph_fault(
    alloc: Global,
    project: &mut MorphProject,
    out: &mut [u8],
    reply: &mut MorphReply,
) -> u32
    ensures told { Tells (IsFault project.old.slot.value) (IsNoFault project.old.slot.value) out.old out.new reply.new result }
    ensures kept { project.new.slot.value ≡ project.old.slot.value }
{
    let held = taken(alloc, project);
    let answer = fault_in(alloc, &held);
    put_back(alloc, project, held);
    tell(answer, out, reply)
}
