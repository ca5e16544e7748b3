ghost use Rattle.std.specs.Prelude.{◌≡◌, ◌+◌, ◌<◌, ◌≤◌, ◌↔◌, ◌++◌, false, IsTrue, OnOk, length, replicate};
ghost use Rattle.lexc_compile.specs.Blocks.{AddsBlock, IsThere, target_of};

use flag_diacritics::Tape;
use fsa::Fsa;
use fsa_rational::{add_epsilon, add_shifted, leave_finals};
use std::alloc::AllocError;

/// Adds the states and the edges of an entry's network, in the lexicon at a place, among so many lexicons.
pub fn add_block(
    m: &mut Fsa<Tape>,
    count: usize,
    place: usize,
    net: &Fsa<Tape>,
    next: Option<u32>,
) -> Result<(), AllocError>
    requires room { count < 18446744073709551615 }
    requires homes { count + 2 ≤ length m.old.finals }
    requires place { place < count }
    requires next { IsThere count next }
    ensures { OnOk result (AddsBlock count place net.now next m.old m.new) }
{
    let begin = m.states();
    add_states(m, net.states())?;
    add_epsilon(m, place + 1, begin)?;
    add_shifted(m, net.edges(), begin)?;
    leave_finals(m, net.finals(), begin, target_of(count, next))
}

/// Whether a path may go on there: at its end, or in a lexicon that there is.
pub fn is_there(count: usize, next: Option<u32>) -> bool
    ensures { IsTrue result ↔ IsThere count next }
{
    match next {
        Some(place) => (place as usize) < count,
        None => true,
    }
}

/// The state of the lexicon that a path goes on in, or of its end.
pub fn target_of(count: usize, next: Option<u32>) -> usize
    requires room { count < 18446744073709551615 }
    ensures { result ≡ target_of count next }
{
    match next {
        Some(place) => place as usize + 1,
        None => count + 1,
    }
}

/// Adds states that aren't final.
fn add_states(m: &mut Fsa<Tape>, more: usize) -> Result<(), AllocError>
    ensures finals { OnOk result (m.new.finals ≡ m.old.finals ++ replicate more false) }
    ensures edges { OnOk result (m.new.edges ≡ m.old.edges) }
{
    for _added in 0..more {
        m.add_state()?;
    }
    Ok(())
}
