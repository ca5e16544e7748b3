ghost use Rattle.std.specs.Prelude.{◌≡◌, Contains, IfOk, codes, map};
ghost use Rattle.word_relations.specs.Relations.{AreSame};
ghost use Rattle.word_relations.specs.Words.{IsDistinct};
ghost use Rattle.expr_kinds.specs.declared.form.Kind.{Kind};
ghost use Rattle.project_meaning.specs.Lexicons.{LexiconsRelate};
ghost use Rattle.network_algebra.specs.Networks.{IsNetwork, PairsOf, kind_of_network};
ghost use Rattle.network_expr.specs.Parts.{IsGround, stands};
ghost use Rattle.network_lexicons.specs.Built.{AreBuilt};
ghost use Rattle.network_lexicons.specs.Plain.{lexicon_of, names_of, symbol_in};

use crate::entries::add_lexicons;
use crate::flags::Flags;
use crate::names::Names;
use crate::passing::network_of_tapes;
use crate::small::small;
use fsm_base::Sym;
use lexc_compile::LexiconBuilder;
use network_algebra::Network;
use network_expr::Part;
use regex_ast::{Atom, Lexicon};
use std::alloc::{AllocError, Global};

/// The network of lexicons: the two sides of each path from the lexicon `Root` on which the flags of each side pass by
/// themselves, without these flags. It is made of one automaton, to which all entries are given one by one. That is made
/// small, and then its flags are made states, or stay as conditions where these would be many.
pub fn network_of_lexicons(
    alloc: Global,
    alphabet: &[Sym],
    parts: &[Part],
    lexicons: &[Lexicon<Atom>],
) -> Result<Network, AllocError>
    requires ground { IsGround alphabet.now parts.now }
    requires built { AreBuilt parts.now alphabet.now (map lexicon_of lexicons.now) }
    requires distinct { IsDistinct (names_of (map lexicon_of lexicons.now)) }
    requires root { Contains (names_of (map lexicon_of lexicons.now)) (codes "Root") }
    ensures letters { IfOk result (IsNetwork alphabet.now) }
    ensures kind { IfOk result (λ n. kind_of_network n ≡ Kind.Relation) }
    ensures meaning { IfOk result (λ n. AreSame (PairsOf n) (LexiconsRelate symbol_in (stands parts.now) alphabet.now (map lexicon_of lexicons.now))) }
{
    let names = Names::of(alloc, lexicons)?;
    let Some(root) = names.place_of("Root") else {
        unreachable!()
    };
    let mut flags = Flags::new(alloc);
    let mut builder = LexiconBuilder::new(alloc, lexicons.len(), root)?;
    add_lexicons(
        alloc,
        alphabet,
        parts,
        &names,
        &mut builder,
        lexicons,
        &mut flags,
    )?;
    let tapes = small(alloc, builder.finish())?;
    network_of_tapes(alloc, &tapes, flags.as_slice())
}
