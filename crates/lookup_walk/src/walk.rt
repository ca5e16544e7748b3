ghost use Rattle.std.specs.Prelude.{◌≡◌, ◌<◌, ◌++◌, ◌↔◌, ℕ, List, Some, None, Contains, IfOk, IfSome, IfNone, IsTrue, OnOk, length, option_copied, false};
ghost use Rattle.std.specs.Option.{option_to_list};
ghost use Rattle.word_relations.specs.Answers.{AreAll, IsInOrder};
ghost use Rattle.word_relations.specs.Words.{IsOver};
ghost use Rattle.fsm_base.specs.Alphabet.{symbols_of};
ghost use Rattle.fsm_base.specs.declared.letters.Sym.{Sym};
ghost use Rattle.fst_flagged.specs.Conditions.{is_letter};
ghost use Rattle.lookup_walk.specs.Answering.{IsOverAlphabet, TextsBy};
ghost use Rattle.lookup_walk.specs.Walks.{Adds, Along, ComesFrom, Goes, GoesOn, Stops, Through, WritesOver};
ghost use Rattle.lookup_walk.specs.Ways.{ComesTo, IsSymbol};

use crate::finals::is_final;
use crate::moves::Move;
use crate::net::Net;
use crate::table::Table;
use flag_runs::{Behind, Rules, Values};
use fsm_base::{Alphabet, Sym, Text};
use fst_flagged::FIRST;
use lookup_answers::{Direction, MOST_ANSWERS};
use std::alloc::{AllocError, Global};

/// How many states a walk enters before it is given up. Words of lexicons enter a few hundred, and what is given up is a
/// small part of a general search.
const MOST_ENTERED: usize = 4_096;

/// How many moves a walk takes one after another before it is given up, so that the stack stays small.
const DEEPEST: usize = 1_024;

/// How many bytes of texts a walk finds before it is given up. Many paths may write one long text, which is kept for
/// each of them until the walk ends.
const MOST_BYTES: usize = 262_144;

/// How many symbols more than the word room is made for, since analyses end with a few tags.
const TAGS: usize = 8;

/// What a walk goes over.
#[derive(Clone, Copy)]
struct Ground<'a> {
    /// The moves of the network.
    table: &'a Table,
    /// Whether each state is final.
    finals: &'a [bool],
    /// What the conditions do that are obeyed, if the network keeps flags.
    rules: Option<&'a Rules>,
    /// The symbols, with their texts.
    alphabet: &'a Alphabet,
}

/// What a walk still has before it.
#[derive(Clone, Copy)]
struct Rest<'a> {
    /// The rest of the word.
    word: &'a [Sym],
    /// What the features are behind the conditions that were obeyed so far.
    values: &'a Values,
}

/// What a walk may spend until it is given up.
#[derive(Drop)]
struct Left {
    /// How many states it may enter.
    states: usize,
    /// How many bytes of texts it may find.
    bytes: usize,
}

/// Where a walk stands.
#[derive(Drop)]
pub(crate) struct Trail {
    /// The symbols that were written on the way here.
    written: Vec<Sym>,
    /// The texts of the paths that were taken so far.
    found: Vec<Text>,
}

/// A place that a walk comes to.
#[derive(Clone, Copy)]
struct Place<'a> {
    /// The state.
    state: usize,
    /// The rest of the word.
    rest: &'a [Sym],
}

/// The texts of the words that a network relates to a word, each once and in the order of their bytes, or None where
/// the walk was given up. It takes one path after another, depth first and with no regard to where it was before. So
/// where it ends there are no further paths, and around a loop it is given up. A path whose conditions don't hold is left
/// at the first that doesn't.
pub fn walked(
    alloc: Global,
    net: &Net,
    direction: Direction,
    alphabet: &Alphabet,
    word: &[Sym],
) -> Result<Option<Vec<Text>>, AllocError>
    requires { IsOverAlphabet alphabet.now net.now }
    ensures { IfOk result (λ found. IfSome found (λ texts. AreAll (TextsBy direction net.now alphabet.now word.now) texts.items)) }
{
    let way = net.way(direction);
    let ground = Ground {
        table: way.table,
        finals: way.finals,
        rules: way.rules,
        alphabet,
    };
    let values = start(alloc, way.rules)?;
    let rest = Rest {
        word,
        values: &values,
    };
    let mut left = Left {
        states: MOST_ENTERED,
        bytes: MOST_BYTES,
    };
    let mut trail = Trail {
        written: Vec::with_capacity(alloc, word.len().saturating_add(TAGS))?,
        found: Vec::new(alloc),
    };
    if !go(alloc, &ground, 0, &rest, DEEPEST, &mut left, &mut trail)? {
        return Ok(None);
    }
    let texts = in_order(trail.found);
    if texts.len() > MOST_ANSWERS {
        return Ok(None);
    }
    Ok(Some(texts))
}

/// What the features are at the start of a word: those of a plain network are none.
fn start(alloc: Global, rules: Option<&Rules>) -> Result<Values, AllocError>
    ensures { IfOk result (λ values. (written word : List Sym) → ComesFrom (option_copied rules.entry) values written word ↔ ComesTo (option_copied rules.entry) written word) }
{
    match rules {
        Some(rules) => {
            let values = rules.start(alloc)?;
            Ok(values)
        }
        None => Ok(Values::none(alloc)),
    }
}

/// The texts, each once and in the order of their bytes.
fn in_order(texts: Vec<Text>) -> Vec<Text>
    ensures same { (text : List ℕ) → Contains result.items text ↔ Contains texts.items text }
    ensures in_order { IsInOrder result.items }
{
    let mut sorted = texts;
    sorted.sort_unstable();
    sorted.dedup();
    sorted
}

/// Takes the paths from a state that read the rest of the word, as [`enter`] does, but goes on with no call as long as one
/// move alone leads on. Gives false where the walk was given up.
#[cycle(walk)]
fn go(
    alloc: Global,
    ground: &Ground,
    state: usize,
    rest: &Rest,
    depth: usize,
    left: &mut Left,
    trail: &mut Trail,
) -> Result<bool, AllocError>
    requires moves { WritesOver (option_copied ground.now.rules) ground.now.alphabet.now ground.now.table.now }
    requires written { IsOver (symbols_of ground.now.alphabet.now) trail.old.written.items }
    ensures { IfOk result (λ whole. IsTrue whole → Adds ground.now.alphabet.now (Goes (option_copied ground.now.rules) ground.now.table.now ground.now.finals.now rest.now.values.now state rest.now.word.now) trail.old trail.new) }
{
    let len = trail.written.len();
    let place = ahead(ground, state, rest.word, left, trail)?;
    let behind = Rest {
        word: place.rest,
        values: rest.values,
    };
    let whole = enter(alloc, ground, place.state, &behind, depth, left, trail)?;
    trail.written.truncate(len);
    Ok(whole)
}

/// Takes the paths from a state that read the rest of the word. Gives false where the walk was given up.
#[cycle(walk)]
fn enter(
    alloc: Global,
    ground: &Ground,
    state: usize,
    rest: &Rest,
    depth: usize,
    left: &mut Left,
    trail: &mut Trail,
) -> Result<bool, AllocError>
    requires moves { WritesOver (option_copied ground.now.rules) ground.now.alphabet.now ground.now.table.now }
    requires written { IsOver (symbols_of ground.now.alphabet.now) trail.old.written.items }
    ensures { IfOk result (λ whole. IsTrue whole → Adds ground.now.alphabet.now (Goes (option_copied ground.now.rules) ground.now.table.now ground.now.finals.now rest.now.values.now state rest.now.word.now) trail.old trail.new) }
{
    if depth == 0 || left.states == 0 {
        return Ok(false);
    }
    left.states -= 1;
    let epsilon = ground.table.epsilon(state);
    let whole = follow(alloc, ground, epsilon, rest, depth - 1, left, trail)?;
    if !whole {
        return Ok(false);
    }
    let Some((symbol, word)) = rest.word.split_first() else {
        let all = stop(alloc, ground, state, left, trail)?;
        return Ok(all);
    };
    let reading = ground.table.reading(state, *symbol);
    let behind = Rest {
        word,
        values: rest.values,
    };
    let all = follow(alloc, ground, reading, &behind, depth - 1, left, trail)?;
    Ok(all)
}

/// Takes the paths that begin with one of these moves and read the rest of the word behind it.
#[cycle(walk)]
fn follow(
    alloc: Global,
    ground: &Ground,
    moves: &[Move],
    rest: &Rest,
    depth: usize,
    left: &mut Left,
    trail: &mut Trail,
) -> Result<bool, AllocError>
    requires moves { WritesOver (option_copied ground.now.rules) ground.now.alphabet.now ground.now.table.now }
    requires front { WritesOver (option_copied ground.now.rules) ground.now.alphabet.now moves.now }
    requires written { IsOver (symbols_of ground.now.alphabet.now) trail.old.written.items }
    ensures { IfOk result (λ whole. IsTrue whole → Adds ground.now.alphabet.now (Along (option_copied ground.now.rules) ground.now.table.now ground.now.finals.now rest.now.values.now moves.now rest.now.word.now) trail.old trail.new) }
{
    'moves: for m in moves {
        let whole = pass(alloc, ground, *m, rest, depth, left, trail)?;
        if !whole {
            return Ok(false);
        }
    }
    Ok(true)
}

/// Takes the paths that begin with this move and read the rest of the word behind it. A condition that it writes is obeyed: where it doesn't
/// hold there are none.
#[cycle(walk)]
fn pass(
    alloc: Global,
    ground: &Ground,
    m: Move,
    rest: &Rest,
    depth: usize,
    left: &mut Left,
    trail: &mut Trail,
) -> Result<bool, AllocError>
    requires moves { WritesOver (option_copied ground.now.rules) ground.now.alphabet.now ground.now.table.now }
    requires symbol { (symbol : Sym) → m.write ≡ Some symbol → IsSymbol (option_copied ground.now.rules) symbol → Contains (symbols_of ground.now.alphabet.now) symbol }
    requires written { IsOver (symbols_of ground.now.alphabet.now) trail.old.written.items }
    ensures { IfOk result (λ whole. IsTrue whole → Adds ground.now.alphabet.now (Through (option_copied ground.now.rules) ground.now.table.now ground.now.finals.now rest.now.values.now m rest.now.word.now) trail.old trail.new) }
{
    let Some(symbol) = m.write else {
        let all = go(alloc, ground, m.to, rest, depth, left, trail)?;
        return Ok(all);
    };
    if let Some(rules) = rules_at(ground.rules, symbol) {
        return match rules.after(alloc, rest.values, symbol)? {
            Behind::Refused => Ok(true),
            Behind::Stay => {
                let all = go(alloc, ground, m.to, rest, depth, left, trail)?;
                Ok(all)
            }
            Behind::To(values) => {
                let behind = Rest {
                    word: rest.word,
                    values: &values,
                };
                let all = go(alloc, ground, m.to, &behind, depth, left, trail)?;
                Ok(all)
            }
        };
    }
    let len = trail.written.len();
    trail.written.push(symbol)?;
    let whole = go(alloc, ground, m.to, rest, depth, left, trail)?;
    trail.written.truncate(len);
    Ok(whole)
}

/// The rules, where a symbol is a condition that they say something of.
fn rules_at<'a>(rules: Option<&'a Rules>, symbol: Sym) -> Option<&'a Rules>
    ensures rules { IfSome result (λ found. option_copied rules.entry ≡ Some found.now) }
    ensures condition { IfSome result (λ _. is_letter symbol ≡ false) }
    ensures none { IfNone result (IsSymbol (option_copied rules.entry) symbol) }
{
    match rules {
        Some(rules) if symbol.0 >= FIRST => Some(rules),
        _ => None,
    }
}

/// Takes moves as long as one alone leads on. Gives the place behind them.
fn ahead<'a>(
    ground: &Ground,
    state: usize,
    word: &'a [Sym],
    left: &mut Left,
    trail: &mut Trail,
) -> Result<Place<'a>, AllocError>
    requires moves { WritesOver (option_copied ground.now.rules) ground.now.alphabet.now ground.now.table.now }
    requires written { IsOver (symbols_of ground.now.alphabet.now) trail.old.written.items }
    ensures { IfOk result (λ place. GoesOn (option_copied ground.now.rules) ground.now.alphabet.now ground.now.table.now ground.now.finals.now state word.now place.state place.rest.now trail.old trail.new) }
{
    let mut at = state;
    let mut rest = word;
    'moves: loop {
        let Some(next) = step(ground, at, rest, left, trail)? else {
            return Ok(Place { state: at, rest });
        };
        at = next.state;
        rest = next.rest;
    }
}

/// Takes the move that leads on from a state, where it is the only one, writes no condition, and the walk isn't given up. Gives the place
/// behind it.
fn step<'a>(
    ground: &Ground,
    state: usize,
    rest: &'a [Sym],
    left: &mut Left,
    trail: &mut Trail,
) -> Result<Option<Place<'a>>, AllocError>
    requires moves { WritesOver (option_copied ground.now.rules) ground.now.alphabet.now ground.now.table.now }
    requires written { IsOver (symbols_of ground.now.alphabet.now) trail.old.written.items }
    ensures on { IfOk result (λ next. IfSome next (λ place. GoesOn (option_copied ground.now.rules) ground.now.alphabet.now ground.now.table.now ground.now.finals.now state rest.now place.state place.rest.now trail.old trail.new)) }
    ensures shorter { IfOk result (λ next. IfSome next (λ place. length place.rest.now < length rest.now)) }
    ensures none { IfOk result (λ next. IfNone next (trail.new ≡ trail.old)) }
{
    if left.states == 0 {
        return Ok(None);
    }
    let Some((symbol, behind)) = rest.split_first() else {
        return Ok(None);
    };
    let Some(m) = ground.table.only(state, *symbol) else {
        return Ok(None);
    };
    if writes_condition(ground.rules, m.write) {
        return Ok(None);
    }
    left.states -= 1;
    write(m.write, trail)?;
    Ok(Some(Place {
        state: m.to,
        rest: behind,
    }))
}

/// Whether what a move writes is a condition that is obeyed.
fn writes_condition(rules: Option<&Rules>, write: Option<Sym>) -> bool
    ensures { result ≡ false → (symbol : Sym) → write ≡ Some symbol → IsSymbol (option_copied rules.entry) symbol }
{
    match write {
        Some(symbol) => rules_at(rules, symbol).is_some(),
        None => false,
    }
}

/// Writes a symbol, if there is one.
fn write(symbol: Option<Sym>, trail: &mut Trail) -> Result<(), AllocError>
    ensures written { OnOk result (trail.new.written.items ≡ trail.old.written.items ++ option_to_list symbol) }
    ensures found { OnOk result (trail.new.found.items ≡ trail.old.found.items) }
{
    if let Some(symbol) = symbol {
        trail.written.push(symbol)?;
    }
    Ok(())
}

/// Adds the text that was written on the way here, where the state is final. Gives false where the walk was given up.
fn stop(
    alloc: Global,
    ground: &Ground,
    state: usize,
    left: &mut Left,
    trail: &mut Trail,
) -> Result<bool, AllocError>
    requires { IsOver (symbols_of ground.now.alphabet.now) trail.old.written.items }
    ensures { IfOk result (λ whole. IsTrue whole → Adds ground.now.alphabet.now (Stops ground.now.finals.now state) trail.old trail.new) }
{
    if !is_final(ground.finals, state) {
        return Ok(true);
    }
    let text = ground.alphabet.text(alloc, &trail.written)?;
    if left.bytes < text.as_str().len() {
        return Ok(false);
    }
    left.bytes -= text.as_str().len();
    trail.found.push(text)?;
    Ok(true)
}
