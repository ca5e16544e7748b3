ghost use Rattle.std.specs.Prelude.{◌≡◌, ◌<◌, ◌+◌, ◌-◌, ◌^◌, IfOk, length, map};
ghost use Rattle.fsm_base.specs.Alphabet.{IsAlphabet, symbols_of, text_of};
ghost use Rattle.grammar_pairs.specs.Plain.{IsFormed, grammar_of};
ghost use Rattle.grammar_pairs.specs.Texts.{in_texts};
ghost use Rattle.network_grammars.specs.Meaning.{IsOverSymbols};
ghost use Rattle.project_meaning.specs.Leaves.{Leaf};
ghost use Rattle.project_meaning.specs.Projects.{Project as Meant};
ghost use Rattle.project_meaning.specs.Trees.{Grammar as Told};
ghost use Rattle.twolc_expressions.specs.Views.{pair_view};
ghost use Rattle.pair_lines.specs.Ready.{AreOfGrammar, ShowsRules};
ghost use Rattle.pair_lines.specs.Replies.{RepliesToString, RepliesToText};
ghost use Rattle.pair_lines.specs.Strings.{letter_of};

use crate::grammar_rules::rules_of;
use crate::lines::{no_pair, no_string, tried};
use crate::numbers::{Numbered, by_numbers, numbers_of};
use crate::read::read_pairs;
use fsm_base::{Alphabet, Sym, Text};
use grammar_pairs::{NameTable, PairTable};
use pair_test::RuleTests;
use regex_ast::{Atom, Grammar, PairAtom, Raw, ReadError, TwoLevelRule};
use std::alloc::{AllocError, Global};
use std::marker::Model;

/// The rules of a name, ready to be tried on lines.
#[derive(Drop)]
pub struct PairRules {
    /// The name, in Normalization Form C.
    name: Text,
    /// The symbols of the project by their texts.
    numbers: NameTable<Sym>,
    /// The feasible pairs.
    pairs: PairTable,
    /// The tests of the rules, over the feasible pairs.
    tests: RuleTests,
    /// The names of the rules, each at its rule's place.
    rules: Vec<Text>,
}

impl Model for PairRules {
    ghost use Rattle.pair_lines.specs.Ready.{AreReady, PairRulesView};

    ghost Value = { PairRulesView };

    ghost view = { λ r. record { name = r.name; numbers = r.numbers; pairs = r.pairs; tests = r.tests; rules = r.rules.items } };

    ghost invariant = { λ r. AreReady (record { name = r.name; numbers = r.numbers; pairs = r.pairs; tests = r.tests; rules = r.rules.items }) };
}

/// The names of rules. Of 2^32 rules or more there is no memory for the numbers.
fn names_of(alloc: Global, rules: &[TwoLevelRule<Atom>]) -> Result<Vec<Text>, AllocError>
    ensures names { IfOk result (λ names. names.items ≡ map (λ (r : TwoLevelRule Atom). r.name) rules.now) }
    ensures few { IfOk result (λ names. length names.items < 2 ^ 32) }
{
    let Ok(_count) = u32::try_from(rules.len()) else {
        return Err(AllocError);
    };
    let mut names = Vec::new(alloc);
    'rules: for rule in rules {
        names.push(rule.name.clone()?)?;
    }
    Ok(names)
}

impl PairRules {
    /// The rules of a grammar under a name, over the symbols of an alphabet. Each context is made into two automata, once.
    pub fn of_grammar(
        alloc: Global,
        alphabet: &Alphabet,
        name: Text,
        grammar: &Grammar<Atom>,
    ) -> Result<PairRules, AllocError>
        requires { IsFormed (grammar_of grammar.now) }
        ensures name { IfOk result (λ rules. rules.name ≡ name) }
        ensures rules { IsOverSymbols (symbols_of alphabet.now) grammar.now → IfOk result (AreOfGrammar (in_texts (text_of alphabet.now) (grammar_of grammar.now))) }
    {
        let _symbols = alphabet.symbols();
        let made = rules_of(alloc, grammar)?;
        let tests = RuleTests::of(alloc, &made.pairs, &made.rules)?;
        Ok(PairRules {
            name,
            numbers: numbers_of(alloc, alphabet)?,
            pairs: PairTable::of(alloc, grammar)?,
            tests,
            rules: names_of(alloc, &grammar.rules)?,
        })
    }

    /// The reply to a string of pairs, at a version.
    fn reply_to_string(
        &self,
        alloc: Global,
        version: u64,
        string: &[PairAtom<Raw>],
    ) -> Result<Vec<u8>, AllocError>
        requires { length string.now + 1 < 2 ^ 32 }
        ensures { (g : Told Leaf) → AreOfGrammar g self.now → IfOk result (λ bytes. RepliesToString g version (map (λ p. letter_of (pair_view p)) string.now) bytes.items) }
    {
        match by_numbers(alloc, &self.numbers, &self.pairs, string)? {
            Numbered::Word(word) => {
                let verdict = self.tests.verdict(alloc, &word)?;
                tried(alloc, version, &self.rules, verdict)
            }
            Numbered::Outside(number) => no_pair(alloc, version, number),
        }
    }

    /// The reply to a text in Normalization Form C, at a version: `V line`, `V pair K`, `V pass` or `V fail RULE PLACE NAME`. Takes
    /// time in proportion to the text's length times the number of contexts.
    pub fn reply_to(&self, alloc: Global, version: u64, text: &str) -> Result<Vec<u8>, AllocError>
        requires { length text.now + 1 < 2 ^ 32 - 1 }
        ensures { (project : Meant) → ShowsRules self.now project → IfOk result (λ bytes. RepliesToText project version self.now.name text.now bytes.items) }
    {
        match read_pairs(alloc, text) {
            Ok(string) => self.reply_to_string(alloc, version, &string),
            Err(ReadError::Fault { .. }) => no_string(alloc, version),
            Err(ReadError::Memory(error)) => Err(error),
        }
    }
}
