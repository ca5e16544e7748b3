ghost use Rattle.std.specs.Prelude.{◌≡◌, ◌<◌, ◌↔◌, List, Some, IfOk, OnOk, length, map};
ghost use Rattle.fsa.specs.Automaton.{UsesLetter};
ghost use Rattle.fsa.specs.Language.{Accepts};
ghost use Rattle.flag_diacritics.specs.declared.tape.Tape.{Tape};
ghost use Rattle.lexc_compile.specs.Growing.{GivesEntry, IsBegun, IsPlaced};
ghost use Rattle.lexc_compile.specs.Paths.{HasPath, IsEntryOf, SomeEntryUses, network};

use crate::blocks::is_there;
use crate::builder::LexiconBuilder;
use crate::chains::word_of;
use crate::entry::LexEntry;
use flag_diacritics::Tape;
use fsa::Fsa;
use std::alloc::{AllocError, Global};

/// The automaton of the tapes of all paths that begin in the root lexicon, by its place. Entries whose network is a chain are
/// given to it as words, of which those of one lexicon share the states of their fronts. An entry that names a lexicon which
/// isn't there is on no path.
pub fn lexicon(
    alloc: Global,
    lexicons: &[Vec<LexEntry>],
    root: u32,
) -> Result<Fsa<Tape>, AllocError>
    requires { root < length lexicons.now }
    ensures letters { IfOk result (λ m. (x : Tape) → UsesLetter m x → SomeEntryUses (IsEntryOf (map (λ entries. entries.items) lexicons.now)) x) }
    ensures language { IfOk result (λ m. (tape : List Tape) → Accepts m tape ↔ HasPath (IsEntryOf (map (λ entries. entries.items) lexicons.now)) (Some root) tape) }
{
    let count = lexicons.len();
    let mut builder = LexiconBuilder::new(alloc, count, root)?;
    'lexicons: for (place, entries) in lexicons.iter().enumerate() {
        'entries: for entry in entries.as_slice() {
            if is_there(count, entry.next) {
                add_entry(alloc, &mut builder, place, entry)?;
            }
        }
    }
    Ok(builder.finish())
}

/// Gives an entry of the lexicon at a place: a chain as a word, and any other network whole.
fn add_entry(
    alloc: Global,
    builder: &mut LexiconBuilder,
    place: usize,
    entry: &LexEntry,
) -> Result<(), AllocError>
    requires begun { IsBegun builder.old }
    requires placed { IsPlaced builder.old.count (record { place = place; content = network entry.now.net; next = entry.now.next }) }
    ensures { OnOk result (GivesEntry place entry.now builder.old builder.new) }
{
    match word_of(alloc, &entry.net)? {
        Some(tape) => builder.add_word(place, &tape, entry.next),
        None => builder.add_network(place, &entry.net, entry.next),
    }
}
