ghost use Rattle.std.specs.Prelude.{IfOk, All, map, reverse};
ghost use Rattle.network_grammars.specs.Built.{IsBegun, IsBuilt};
ghost use Rattle.network_grammars.specs.PairMeaning.{IsScope};
ghost use Rattle.grammar_pairs.specs.Plain.{IsPairForm, definition_of};

use crate::scope::Scope;
use crate::words::words_of;
use grammar_pairs::{NameTable, PairTable, sets_of};
use regex_ast::{Atom, Grammar};
use std::alloc::{AllocError, Global};

/// The scope of a grammar before its definitions.
fn first_scope(alloc: Global, grammar: &Grammar<Atom>) -> Result<Scope, AllocError>
    ensures scope { IfOk result IsScope }
    ensures begun { IfOk result (IsBegun grammar.now) }
{
    let pairs = PairTable::of(alloc, grammar)?;
    let _ = pairs.as_slice();
    let numbers = pairs.numbers(alloc)?;
    let sets = sets_of(alloc, &grammar.sets)?;
    Ok(Scope {
        pairs,
        numbers,
        sets,
        definitions: NameTable::new(alloc),
    })
}

/// The scope of a grammar with all its definitions, each of which is built once, in their order.
pub fn scope_of(alloc: Global, grammar: &Grammar<Atom>) -> Result<Scope, AllocError>
    requires { All (λ d. IsPairForm d.term) (map definition_of grammar.now.definitions.items) }
    ensures scope { IfOk result IsScope }
    ensures built { IfOk result (IsBuilt grammar.now (reverse (map definition_of grammar.now.definitions.items))) }
{
    let mut scope = first_scope(alloc, grammar)?;
    'definitions: for definition in &grammar.definitions {
        let words = words_of(alloc, &scope, &definition.expr)?;
        scope.definitions.put(definition.name.as_str(), words)?;
    }
    Ok(scope)
}
