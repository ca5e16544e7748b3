ghost use Rattle.std.specs.Prelude.{◌≡◌, ◌↔◌, ◌&&◌, All, IfOk, IsTrue};
ghost use Rattle.std.specs.List.{list_all};
ghost use Rattle.expr_kinds.specs.Atoms.{is_symbol};
ghost use Rattle.expr_kinds.specs.Built.{IsBuilt};
ghost use Rattle.expr_kinds.specs.Forms.{capped};
ghost use Rattle.expr_kinds.specs.declared.form.Kind.TheVariants.{Relation};
ghost use Rattle.grammar_pairs.specs.Laws.{HasLeaves, pair_passes, part_passes, side_passes};
ghost use Rattle.grammar_pairs.specs.Plain.{grammar_of, pair_of, side_of, term_of};
ghost use Rattle.grammar_weights.specs.Weights.{grammar_weight, is_same_symbol};
ghost use Rattle.project_definitions.specs.Passing.{IsBuiltContext, IsBuiltDefinition, IsBuiltRule, passing};

use expr_kinds::{Form, Kind, form_of};
use expr_leaves::{LeafMap, map_leaves};
use fsm_base::Sym;
use grammar_weights::weight_of_grammar;
use regex_ast::{
    Atom, Context, Expr, Grammar, PairAtom, PairDefine, PairPart, PairSide, SetOf, TwoLevelRule,
};
use std::alloc::{AllocError, Global};

/// Whether a leaf is a symbol.
fn is_symbol(leaf: Atom) -> bool
    ensures { result ≡ is_symbol leaf }
{
    match leaf {
        Atom::Sym(_) => true,
        Atom::Name(_) => false,
    }
}

/// Whether the leaf of a side, if it has one, is a symbol.
fn side_passes(side: &PairSide<Atom>) -> bool
    ensures { result ≡ side_passes is_symbol (side_of side.now) }
{
    match side {
        PairSide::One(leaf) => is_symbol(*leaf),
        PairSide::Zero => true,
        PairSide::Any => true,
        PairSide::Member(_) => true,
    }
}

/// Whether the leaves of a pair are symbols.
fn pair_passes(pair: &PairAtom<Atom>) -> bool
    ensures { result ≡ pair_passes is_symbol (pair_of pair.now) }
{
    side_passes(&pair.up) && side_passes(&pair.low)
}

/// Whether the leaves of each pair are.
fn pairs_pass(pairs: &[PairAtom<Atom>]) -> bool
    ensures { result ≡ list_all (λ p. pair_passes is_symbol (pair_of p)) pairs.now }
{
    pairs.iter().all(|pair| pair_passes(pair))
}

/// Whether leaves are symbols.
fn are_symbols(leaves: &[Atom]) -> bool
    ensures { result ≡ list_all is_symbol leaves.now }
{
    leaves.iter().all(|leaf| is_symbol(*leaf))
}

/// Whether the symbols of a set are.
fn set_passes(set: &SetOf<Atom>) -> bool
    ensures { result ≡ list_all is_symbol set.now.symbols.items }
{
    are_symbols(&set.symbols)
}

/// Whether those of each set are.
fn sets_pass(sets: &[SetOf<Atom>]) -> bool
    ensures { result ≡ list_all (λ s. list_all is_symbol s.symbols.items) sets.now }
{
    sets.iter().all(|set| set_passes(set))
}

/// What stands for the leaves of an expression over pairs: a symbol where their own leaves are, else a name.
#[derive(Drop)]
struct Passing;

impl LeafMap<PairPart<Atom>, Atom> for Passing {
    ghost image = { λ images. passing };

    fn image_of(&self, _alloc: Global, leaf: &PairPart<Atom>) -> Result<Atom, AllocError> {
        match leaf {
            PairPart::Atom(pair) => Ok(if pair_passes(pair) {
                Atom::Sym(Sym(0))
            } else {
                Atom::Name(0)
            }),
            PairPart::Named(_) => Ok(Atom::Sym(Sym(0))),
        }
    }
}

/// Whether an expression over pairs can be built: its leaves are symbols, and each insertion stands alone in its rules.
fn is_built(alloc: Global, expr: &Expr<PairPart<Atom>>) -> Result<bool, AllocError>
    ensures { IfOk result (λ built. IsTrue built ↔ IsBuilt (part_passes is_symbol) (term_of expr.now)) }
{
    Ok(form_of(&[], &map_leaves(alloc, &Passing, expr)?).built)
}

/// Whether both sides of a context can.
fn is_built_context(alloc: Global, context: &Context<PairPart<Atom>>) -> Result<bool, AllocError>
    ensures { IfOk result (λ built. IsTrue built ↔ IsBuiltContext context.now) }
{
    let left = is_built(alloc, &context.left)?;
    let right = is_built(alloc, &context.right)?;
    Ok(left && right)
}

/// Whether each context can.
fn contexts_are_built(
    alloc: Global,
    contexts: &[Context<PairPart<Atom>>],
) -> Result<bool, AllocError>
    ensures { IfOk result (λ built. IsTrue built ↔ All IsBuiltContext contexts.now) }
{
    'contexts: for context in contexts {
        let built = is_built_context(alloc, context)?;
        if !built {
            return Ok(false);
        }
    }
    Ok(true)
}

/// Whether the expression of each definition can.
fn definitions_are_built(
    alloc: Global,
    definitions: &[PairDefine<Atom>],
) -> Result<bool, AllocError>
    ensures { IfOk result (λ built. IsTrue built ↔ All IsBuiltDefinition definitions.now) }
{
    'definitions: for definition in definitions {
        let built = is_built(alloc, &definition.expr)?;
        if !built {
            return Ok(false);
        }
    }
    Ok(true)
}

/// Whether a rule can: its pair is of symbols, and its contexts can.
fn is_built_rule(alloc: Global, rule: &TwoLevelRule<Atom>) -> Result<bool, AllocError>
    ensures { IfOk result (λ built. IsTrue built ↔ IsBuiltRule rule.now) }
{
    let contexts = contexts_are_built(alloc, &rule.contexts)?;
    Ok(pair_passes(&rule.pair) && contexts)
}

/// Whether each rule can.
fn rules_are_built(alloc: Global, rules: &[TwoLevelRule<Atom>]) -> Result<bool, AllocError>
    ensures { IfOk result (λ built. IsTrue built ↔ All IsBuiltRule rules.now) }
{
    'rules: for rule in rules {
        let built = is_built_rule(alloc, rule)?;
        if !built {
            return Ok(false);
        }
    }
    Ok(true)
}

/// Whether all parts of a grammar can.
fn all_parts(pairs: bool, sets: bool, definitions: bool, rules: bool) -> bool
    ensures { result ≡ (pairs && sets && definitions && rules) }
{
    pairs && sets && definitions && rules
}

/// Whether the network of a grammar can be built: each leaf is a symbol.
fn is_built_grammar(alloc: Global, grammar: &Grammar<Atom>) -> Result<bool, AllocError>
    ensures { IfOk result (λ built. IsTrue built ↔ HasLeaves is_symbol (grammar_of grammar.now)) }
{
    let pairs = pairs_pass(&grammar.pairs);
    let sets = sets_pass(&grammar.sets);
    let definitions = definitions_are_built(alloc, &grammar.definitions)?;
    let rules = rules_are_built(alloc, &grammar.rules)?;
    Ok(all_parts(pairs, sets, definitions, rules))
}

/// What a grammar is: a relation, in which no operand must be a language.
pub fn form_of_grammar(alloc: Global, grammar: &Grammar<Atom>) -> Result<Form, AllocError>
    ensures kind { IfOk result (λ form. form.kind ≡ Relation) }
    ensures fits { IfOk result (λ form. IsTrue form.fits) }
    ensures weight { IfOk result (λ form. form.weight ≡ capped (grammar_weight is_same_symbol (grammar_of grammar.now))) }
    ensures built { IfOk result (λ form. IsTrue form.built ↔ HasLeaves is_symbol (grammar_of grammar.now)) }
{
    Ok(Form {
        kind: Kind::Relation,
        fits: true,
        weight: weight_of_grammar(alloc, grammar)?,
        built: is_built_grammar(alloc, grammar)?,
    })
}
