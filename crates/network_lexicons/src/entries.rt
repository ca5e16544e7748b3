ghost use Rattle.std.specs.Prelude.{◌≡◌, ◌<◌, OnOk, length, map};
ghost use Rattle.flag_diacritics.specs.Numbers.{Keeps};
ghost use Rattle.lexc_compile.specs.Growing.{IsBegun};
ghost use Rattle.network_expr.specs.Parts.{IsGround};
ghost use Rattle.network_lexicons.specs.Built.{AreBuilt, EntriesAreBuilt};
ghost use Rattle.network_lexicons.specs.Entries.{AreEntriesFor, AreLexiconsFor, GivesAll};
ghost use Rattle.network_lexicons.specs.Plain.{entry_of, lexicon_of};

use crate::flags::Flags;
use crate::forms::add_form;
use crate::names::Names;
use fsm_base::Sym;
use lexc_compile::LexiconBuilder;
use network_expr::Part;
use regex_ast::{Atom, Entry, Lexicon};
use std::alloc::{AllocError, Global};

/// Gives the entries of the lexicon at a place, among those of these names. An entry that names no lexicon is on no path, and
/// left out.
fn add_entries(
    alloc: Global,
    alphabet: &[Sym],
    parts: &[Part],
    names: &Names,
    builder: &mut LexiconBuilder,
    place: usize,
    entries: &[Entry<Atom>],
    flags: &mut Flags,
) -> Result<(), AllocError>
    requires ground { IsGround alphabet.now parts.now }
    requires built { EntriesAreBuilt parts.now alphabet.now (map entry_of entries.now) }
    requires begun { IsBegun builder.old }
    requires count { builder.old.count ≡ length names.now }
    requires place { place < builder.old.count }
    ensures kept { OnOk result (Keeps flags.old flags.new) }
    ensures given { OnOk result (GivesAll (AreEntriesFor parts.now alphabet.now names.now flags.new place (map entry_of entries.now)) builder.old builder.new) }
{
    'entries: for entry in entries {
        if let Some(next) = names.target_of(&entry.next) {
            add_form(
                alloc,
                alphabet,
                parts,
                builder,
                place,
                &entry.form,
                next,
                flags,
            )?;
        }
    }
    Ok(())
}

/// Gives the entries of each lexicon.
pub fn add_lexicons(
    alloc: Global,
    alphabet: &[Sym],
    parts: &[Part],
    names: &Names,
    builder: &mut LexiconBuilder,
    lexicons: &[Lexicon<Atom>],
    flags: &mut Flags,
) -> Result<(), AllocError>
    requires ground { IsGround alphabet.now parts.now }
    requires built { AreBuilt parts.now alphabet.now (map lexicon_of lexicons.now) }
    requires begun { IsBegun builder.old }
    requires count { builder.old.count ≡ length names.now }
    requires places { length lexicons.now ≡ length names.now }
    ensures kept { OnOk result (Keeps flags.old flags.new) }
    ensures given { OnOk result (GivesAll (AreLexiconsFor parts.now alphabet.now names.now flags.new (map lexicon_of lexicons.now)) builder.old builder.new) }
{
    'lexicons: for (place, lexicon) in lexicons.iter().enumerate() {
        add_entries(
            alloc,
            alphabet,
            parts,
            names,
            builder,
            place,
            &lexicon.entries,
            flags,
        )?;
    }
    Ok(())
}
