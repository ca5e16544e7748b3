ghost use Rattle.std.specs.Prelude.{◌≡◌, IfOk, map};
ghost use Rattle.grammar_pairs.specs.Mapped.{mapped_definition, mapped_grammar, mapped_pair, mapped_rule, mapped_set};
ghost use Rattle.name_resolution.specs.Parts.{part_by, side_by};
ghost use Rattle.grammar_pairs.specs.Plain.{definition_of, grammar_of, pair_of, rule_of, set_of};
ghost use Rattle.name_resolution.specs.Lines.{lines_of};
ghost use Rattle.name_resolution.specs.Resolved.{letter_of};

use crate::names::Names;
use crate::resolving::letter_of;
use expr_leaves::{LeafMap, map_contexts, map_leaves};
use fsm_base::SymbolTable;
use regex_ast::{
    Atom, Grammar, PairAtom, PairDefine, PairPart, PairSide, Raw, SetOf, TwoLevelRule,
};
use std::alloc::{AllocError, Global};

/// What the parts of grammars are where a table has the symbols.
#[derive(Drop)]
struct Resolver<'a> {
    /// The names, which mean nothing there.
    names: &'a Names,
    /// The table.
    table: &'a SymbolTable,
}

impl LeafMap<PairPart<Raw>, PairPart<Atom>> for Resolver<'_> {
    ghost image = { λ r. part_by (letter_of r.names.now r.table.now) };

    fn image_of(&self, _alloc: Global, leaf: &PairPart<Raw>) -> Result<PairPart<Atom>, AllocError> {
        match leaf {
            PairPart::Atom(pair) => Ok(PairPart::Atom(self.pair(pair)?)),
            PairPart::Named(name) => Ok(PairPart::Named(name.clone()?)),
        }
    }
}

impl Resolver<'_> {
    /// A side with its symbol resolved.
    fn side(&self, side: &PairSide<Raw>) -> Result<PairSide<Atom>, AllocError>
        ensures { IfOk result (λ found. found ≡ side_by (letter_of self.now.names.now self.now.table.now) side.now) }
    {
        match side {
            PairSide::Zero => Ok(PairSide::Zero),
            PairSide::Any => Ok(PairSide::Any),
            PairSide::One(leaf) => Ok(PairSide::One(letter_of(self.names, self.table, leaf))),
            PairSide::Member(set) => Ok(PairSide::Member(set.clone()?)),
        }
    }

    /// A pair with its symbols resolved.
    fn pair(&self, pair: &PairAtom<Raw>) -> Result<PairAtom<Atom>, AllocError>
        ensures up { IfOk result (λ found. found.up ≡ side_by (letter_of self.now.names.now self.now.table.now) pair.now.up) }
        ensures low { IfOk result (λ found. found.low ≡ side_by (letter_of self.now.names.now self.now.table.now) pair.now.low) }
    {
        let up = self.side(&pair.up)?;
        let low = self.side(&pair.low)?;
        Ok(PairAtom { up, low })
    }

    /// Pairs with their symbols resolved.
    fn pairs(
        &self,
        alloc: Global,
        pairs: &[PairAtom<Raw>],
    ) -> Result<Vec<PairAtom<Atom>>, AllocError>
        ensures { IfOk result (λ found. map pair_of found.items ≡ map (mapped_pair (letter_of self.now.names.now self.now.table.now)) (map pair_of pairs.now)) }
    {
        let mut found = Vec::new(alloc);
        'pairs: for pair in pairs {
            found.push(self.pair(pair)?)?;
        }
        Ok(found)
    }

    /// Symbols by their numbers.
    fn symbols(&self, alloc: Global, symbols: &[Raw]) -> Result<Vec<Atom>, AllocError>
        ensures { IfOk result (λ found. found.items ≡ map (letter_of self.now.names.now self.now.table.now) symbols.now) }
    {
        let mut found = Vec::new(alloc);
        'symbols: for symbol in symbols {
            found.push(letter_of(self.names, self.table, symbol))?;
        }
        Ok(found)
    }

    /// A set with its symbols resolved.
    fn set(&self, alloc: Global, set: &SetOf<Raw>) -> Result<SetOf<Atom>, AllocError>
        ensures { IfOk result (λ found. set_of found ≡ mapped_set (letter_of self.now.names.now self.now.table.now) (set_of set.now)) }
    {
        let name = set.name.clone()?;
        let symbols = self.symbols(alloc, &set.symbols)?;
        Ok(SetOf { name, symbols })
    }

    /// Sets with their symbols resolved.
    fn sets(&self, alloc: Global, sets: &[SetOf<Raw>]) -> Result<Vec<SetOf<Atom>>, AllocError>
        ensures { IfOk result (λ found. map set_of found.items ≡ map (mapped_set (letter_of self.now.names.now self.now.table.now)) (map set_of sets.now)) }
    {
        let mut found = Vec::new(alloc);
        'sets: for set in sets {
            found.push(self.set(alloc, set)?)?;
        }
        Ok(found)
    }

    /// A definition with its symbols resolved.
    fn definition(
        &self,
        alloc: Global,
        definition: &PairDefine<Raw>,
    ) -> Result<PairDefine<Atom>, AllocError>
        ensures { IfOk result (λ found. definition_of found ≡ mapped_definition (letter_of self.now.names.now self.now.table.now) (definition_of definition.now)) }
    {
        let name = definition.name.clone()?;
        let expr = map_leaves(alloc, self, &definition.expr)?;
        Ok(PairDefine { name, expr })
    }

    /// Definitions with their symbols resolved.
    fn definitions(
        &self,
        alloc: Global,
        definitions: &[PairDefine<Raw>],
    ) -> Result<Vec<PairDefine<Atom>>, AllocError>
        ensures { IfOk result (λ found. map definition_of found.items ≡ map (mapped_definition (letter_of self.now.names.now self.now.table.now)) (map definition_of definitions.now)) }
    {
        let mut found = Vec::new(alloc);
        'definitions: for definition in definitions {
            found.push(self.definition(alloc, definition)?)?;
        }
        Ok(found)
    }

    /// A rule with its symbols resolved.
    fn rule(
        &self,
        alloc: Global,
        rule: &TwoLevelRule<Raw>,
    ) -> Result<TwoLevelRule<Atom>, AllocError>
        ensures rule { IfOk result (λ found. rule_of found ≡ mapped_rule (letter_of self.now.names.now self.now.table.now) (rule_of rule.now)) }
        ensures line { IfOk result (λ found. found.line ≡ rule.now.line) }
    {
        let name = rule.name.clone()?;
        let pair = self.pair(&rule.pair)?;
        let contexts = map_contexts(alloc, self, &rule.contexts)?;
        Ok(TwoLevelRule {
            name,
            line: rule.line,
            pair,
            kind: rule.kind,
            contexts,
        })
    }

    /// Rules with their symbols resolved.
    fn rules(
        &self,
        alloc: Global,
        rules: &[TwoLevelRule<Raw>],
    ) -> Result<Vec<TwoLevelRule<Atom>>, AllocError>
        ensures rules { IfOk result (λ found. map rule_of found.items ≡ map (mapped_rule (letter_of self.now.names.now self.now.table.now)) (map rule_of rules.now)) }
        ensures lines { IfOk result (λ found. lines_of found.items ≡ lines_of rules.now) }
    {
        let mut found = Vec::new(alloc);
        'rules: for rule in rules {
            found.push(self.rule(alloc, rule)?)?;
        }
        Ok(found)
    }
}

/// A grammar with its symbols resolved, where a table has them: each is its number. The names of a project mean nothing there:
/// they tell only what stands for a leaf without a text, which the reader doesn't give. The lines of rules stay.
pub fn resolve_grammar(
    alloc: Global,
    names: &Names,
    table: &SymbolTable,
    grammar: &Grammar<Raw>,
) -> Result<Grammar<Atom>, AllocError>
    ensures grammar { IfOk result (λ found. grammar_of found ≡ mapped_grammar (letter_of names.now table.now) (grammar_of grammar.now)) }
    ensures lines { IfOk result (λ found. lines_of found.rules.items ≡ lines_of grammar.now.rules.items) }
{
    let resolver = Resolver { names, table };
    let pairs = resolver.pairs(alloc, &grammar.pairs)?;
    let sets = resolver.sets(alloc, &grammar.sets)?;
    let definitions = resolver.definitions(alloc, &grammar.definitions)?;
    let rules = resolver.rules(alloc, &grammar.rules)?;
    Ok(Grammar {
        pairs,
        sets,
        definitions,
        rules,
    })
}
