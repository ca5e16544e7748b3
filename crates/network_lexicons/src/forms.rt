ghost use Rattle.std.specs.Prelude.{◌<◌, OnOk, Some};
ghost use Rattle.flag_diacritics.specs.Numbers.{Keeps};
ghost use Rattle.flag_diacritics.specs.declared.tape.Tape.TheVariants as tape;
ghost use Rattle.lexc_compile.specs.Blocks.{IsThere};
ghost use Rattle.lexc_compile.specs.Growing.{IsBegun};
ghost use Rattle.network_expr.specs.Parts.{IsGround};
ghost use Rattle.network_lexicons.specs.Built.{FormIsBuilt};
ghost use Rattle.network_lexicons.specs.Entries.{GivesForm};
ghost use Rattle.network_lexicons.specs.Plain.{form_of};

use crate::flags::Flags;
use crate::tapes::tape_of;
use flag_diacritics::Tape;
use fsm_base::{Pair, Sym};
use lexc_compile::LexiconBuilder;
use network_algebra::{Renaming, renamed};
use network_expr::{Part, relation_of};
use regex_ast::{Atom, Form};
use std::alloc::{AllocError, Global};

/// Gives an entry of this form, of the lexicon at a place, to the automaton of lexicons: of two sides their tape, and of an
/// expression the tapes of its pairs. Flags get their numbers in a list, and new ones are put behind the others there.
pub fn add_form(
    alloc: Global,
    alphabet: &[Sym],
    parts: &[Part],
    builder: &mut LexiconBuilder,
    place: usize,
    form: &Form<Atom>,
    next: Option<u32>,
    flags: &mut Flags,
) -> Result<(), AllocError>
    requires ground { IsGround alphabet.now parts.now }
    requires built { FormIsBuilt parts.now alphabet.now (form_of form.now) }
    requires begun { IsBegun builder.old }
    requires placed { (place < builder.old.count) × IsThere builder.old.count next }
    ensures kept { OnOk result (Keeps flags.old flags.new) }
    ensures given { OnOk result (GivesForm parts.now alphabet.now flags.new place (form_of form.now) next builder.old builder.new) }
{
    match form {
        Form::Sides { upper, lower } => {
            let tape = tape_of(alloc, upper, lower, flags)?;
            builder.add_word(place, &tape, next)
        }
        Form::Pairs(expr) => {
            let pairs = relation_of(alloc, alphabet, parts, expr)?;
            let tapes = renamed(alloc, &pairs, &AsTape)?;
            builder.add_network(place, &tapes, next)
        }
    }
}

/// A pair, as a letter of a tape.
struct AsTape;

impl Renaming<Pair, Tape> for AsTape {
    ghost name = { λ _ pair. Some (tape.Pair pair) };

    fn name_of(&self, pair: Pair) -> Option<Tape> {
        Some(Tape::Pair(pair))
    }
}
