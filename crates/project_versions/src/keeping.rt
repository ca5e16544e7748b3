ghost use Rattle.std.specs.Prelude.{◌≡◌, ◌<◌, ℕ, Contains, IfOk, IfSome, IsTrue, Some, false, length, slice_get, true};
ghost use Rattle.expr_kinds.specs.Atoms.{kind_at};
ghost use Rattle.network_algebra.specs.Networks.{kind_of_network};
ghost use Rattle.touched_names.specs.Places.{IsMarked};
ghost use Rattle.project_versions.specs.Keeping.{IsKept, IsServing, part_in, parts_in};
ghost use Rattle.project_versions.specs.Networks.{AreReady};

use crate::networks::Built;
use expr_kinds::{Form, Kind};
use network_algebra::Network;
use project_store::{Project, Shared};
use std::alloc::{AllocError, Global};
use touched_names::{places_before, same_places};

/// Whether so many places are marked.
fn are_marked(marks: &[bool], count: usize) -> bool
    ensures { IsTrue result → (place : ℕ) → place < count → IsMarked marks.now place }
{
    count <= marks.len() && marks.iter().all(|mark| *mark)
}

/// Marks a place, if there is such a place.
fn mark(marks: &mut [bool], place: usize)
    ensures count { length marks.new ≡ length marks.old }
    ensures marked { place < length marks.old → IsMarked marks.new place }
    ensures stay { (other : ℕ) → IsMarked marks.old other → IsMarked marks.new other }
{
    if place >= marks.len() {
        return;
    }
    marks[place] = true;
}

/// Marks for the places of so many that stand in a list.
fn marks_at(alloc: Global, places: &[usize], count: usize) -> Result<Vec<bool>, AllocError>
    ensures count { IfOk result (λ marks. length marks.items ≡ count) }
    ensures marks { IfOk result (λ marks. (place : ℕ) → place < count → Contains places.now place → IsMarked marks.items place) }
{
    let mut marks = vec![in alloc; false; count]?;
    'places: for place in places {
        mark(&mut marks, *place);
    }
    Ok(marks)
}

/// Whether a network is of a kind.
fn has_kind(network: &Network, kind: Kind) -> bool
    ensures { IsTrue result → kind_of_network network.now ≡ kind }
{
    match network {
        Network::Words(_) => kind == Kind::Language,
        Network::Pairs(_) | Network::Flagged(_) => kind == Kind::Relation,
    }
}

/// The kind of the form at a place. Without a form it is that of a language.
fn kind_of(forms: &[Form], place: usize) -> Kind
    ensures { result ≡ kind_at forms.now place }
{
    match forms.get(place) {
        Some(form) => form.kind,
        None => Kind::Language,
    }
}

/// The network at a place of an old version, where there is one and it is of this kind.
fn serving(networks: &[Built], place: usize, kind: Kind) -> Result<Option<Built>, AllocError>
    ensures { IfOk result (λ found. IfSome found (IsServing networks.now place kind)) }
{
    let Some(built) = networks.get(place) else {
        return Ok(None);
    };
    if !has_kind(built.network.network(), kind) {
        return Ok(None);
    }
    Ok(Some(built.share()?))
}

/// The same, where it stays and isn't touched.
fn kept_at(
    networks: &[Built],
    stays: bool,
    touched: bool,
    place: usize,
    kind: Kind,
) -> Result<Option<Built>, AllocError>
    ensures { IfOk result (λ found. IfSome found (λ b. (stays ≡ true) × (touched ≡ false) × IsServing networks.now place kind b)) }
{
    if !stays || touched {
        return Ok(None);
    }
    serving(networks, place, kind)
}

/// What is kept of an old version in a new project, at the places of the new definitions: the networks of the names that aren't
/// touched, if all old symbols have the same numbers in the new alphabet. `touched` has the places of the touched names.
pub fn kept_networks(
    alloc: Global,
    old: &Project,
    networks: &[Built],
    new: &Project,
    touched: &[usize],
) -> Result<Vec<Option<Built>>, AllocError>
    requires { AreReady old.now networks.now }
    ensures count { IfOk result (λ kept. length kept.items ≡ length new.now.definitions) }
    ensures kept { IfOk result (λ kept. (place : ℕ) (b : Built) → slice_get kept.items place ≡ Some (Some b) → IsKept old.now networks.now new.now touched.now place b) }
{
    let before = old.plan();
    let plan = new.plan();
    let forms = plan.forms();
    let numbers = places_before(alloc, before.definitions(), plan.definitions())?;
    let same = same_places(alloc, old.alphabet(), new.alphabet())?;
    let stays = are_marked(&same, old.alphabet().symbols().len());
    let marks = marks_at(alloc, touched, numbers.len())?;
    let mut kept = Vec::new(alloc);
    'places: for place in 0..numbers.len() {
        let number = numbers[place];
        let mark = marks[place];
        let kind = kind_of(forms, place);
        let found = kept_at(networks, stays, mark, number, kind)?;
        kept.push(found)?;
    }
    Ok(kept)
}

/// The network by itself, where one is kept.
fn part_of(kept: &Option<Built>) -> Result<Option<Shared>, AllocError>
    ensures { IfOk result (λ part. part ≡ part_in kept.now) }
{
    match kept {
        Some(built) => Ok(Some(built.network.share()?)),
        None => Ok(None),
    }
}

/// The networks by themselves that are kept.
pub fn parts_of(alloc: Global, kept: &[Option<Built>]) -> Result<Vec<Option<Shared>>, AllocError>
    ensures { IfOk result (λ parts. parts.items ≡ parts_in kept.now) }
{
    let mut parts = Vec::new(alloc);
    'kept: for one in kept {
        parts.push(part_of(one)?)?;
    }
    Ok(parts)
}
