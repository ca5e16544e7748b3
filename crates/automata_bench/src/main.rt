//! Runs operations on chains and prints how many states the results have. The words are the operation and the number of
//! edges of its operand (of `rules` the number of letters), as the scripts of `bench` give them; without words each line of
//! the standard input has these, and the gate compares what is printed with what was worked out, in the file `stdout`. An
//! empty line, and one that begins with `#`, says nothing.
#![tactic(auto)]

mod tables;

ghost use Rattle.std.specs.Prelude.{◌≡◌, ◌<◌, ℕ, Contains, IfOk, Some, length, slice_get};
ghost use Rattle.word_relations.specs.Words.{IsDistinct};
ghost use Rattle.fsa.specs.Automaton.{UsesLetter};

use crate::tables::{words_by_rules, words_of_length};
use fsa::{Dfa, Edge, Fsa};
use fsa_minimal::minimal;
use fsa_product::{both, complement, minus};
use fsa_rational::{concat, ignore, reverse, star, union, without_empty};
use fsa_subset::determine;
use fsm_base::Sym;
use fst_algebra::identity;
use fst_compose::compose;
use std::alloc::{AllocError, Global};
use std::env;
use std::io::{self, Read};

/// How many letters the automata read.
const LETTERS: u32 = 50;

/// The letters of the numbers below this one, in their order.
fn letters_below(alloc: Global, count: u32) -> Result<Vec<Sym>, AllocError>
    ensures numbers { IfOk result (λ letters. (place : ℕ) (x : Sym) → slice_get letters.items place ≡ Some x → x.0 ≡ place) }
    ensures count { IfOk result (λ letters. length letters.items ≡ count) }
{
    let mut letters = Vec::new(alloc);
    'numbers: for number in 0..count {
        letters.push(Sym(number))?;
    }
    Ok(letters)
}

/// A chain of states with so many edges, which carry these letters in turn. Its last state is final.
fn chain(alloc: Global, letters: &[Sym], edges: usize) -> Result<Fsa<Sym>, AllocError>
    requires { 0 < length letters.now }
    ensures { IfOk result (λ m. (x : Sym) → UsesLetter m x → Contains letters.now x) }
{
    let mut m = Fsa::new(alloc)?;
    let mut last = 0;
    'edges: for k in 0..edges {
        let letter = letters[k % letters.len()];
        let to = m.add_state()?;
        m.add_edge(Edge {
            from: last,
            letter: Some(letter),
            to,
        })?;
        last = to;
    }
    m.set_final(last);
    Ok(m)
}

/// The words of one letter with words of that letter put in, and again, so many times. The automaton is made small each time.
fn ignored_again(alloc: Global, letters: &[Sym], times: u32) -> Result<Dfa<Sym>, AllocError>
    requires distinct { IsDistinct letters.now }
    requires some { 0 < length letters.now }
{
    let one = chain(alloc, letters, 1)?;
    let mut all = determine(alloc, &one, letters)?;
    'times: for _ in 0..times {
        let mixed = ignore(alloc, &all.to_fsa(alloc)?, &one)?;
        all = minimal(alloc, &determine(alloc, &mixed, letters)?)?;
    }
    Ok(all)
}

/// How many states the result of an operation on a complete automaton has, or `None` where there is no such operation.
fn states_of_complete(
    alloc: Global,
    operation: &str,
    d: &Dfa<Sym>,
) -> Result<Option<usize>, AllocError> {
    let states = match operation {
        "determine" => d.states(),
        "both" => both(alloc, d, d)?.states(),
        "complement" => complement(alloc, d)?.states(),
        "minimal" => minimal(alloc, d)?.states(),
        "minimal of nothing" => minimal(alloc, &minus(alloc, d, d)?)?.states(),
        "minimal of all" => {
            let all = complement(alloc, &minus(alloc, d, d)?)?;
            minimal(alloc, &all)?.states()
        }
        _ => return Ok(None),
    };
    Ok(Some(states))
}

/// How many states the operation's result has, at a chain of so many edges, or `None` where there is no
/// such operation.
fn states_after(alloc: Global, operation: &str, size: u32) -> Result<Option<usize>, AllocError> {
    let letters = letters_below(alloc, LETTERS)?;
    let m = chain(alloc, &letters, size as usize)?;
    let states = match operation {
        "chain" => m.states(),
        "union" => union(alloc, &m, &m)?.states(),
        "concat" => concat(alloc, &m, &m)?.states(),
        "star" => star(alloc, &m)?.states(),
        "reverse" => reverse(alloc, &m)?.states(),
        "without_empty" => without_empty(alloc, &star(alloc, &m)?)?.states(),
        "compose" => {
            let relation = identity(alloc, &m)?;
            compose(alloc, &relation, &relation)?.states()
        }
        "minimal of one length" => minimal(
            alloc,
            &words_of_length(alloc, letters, size as usize)?,
        )?.states(),
        "ignore" => ignored_again(alloc, &letters_below(alloc, 2)?, size)?.states(),
        "rules" => words_by_rules(alloc, &letters_below(alloc, size)?)?.states(),
        _ => return states_of_complete(alloc, operation, &determine(alloc, &m, &letters)?),
    };
    Ok(Some(states))
}

/// Prints how many states the operation's result has, if there is such an operation.
fn tell(rt: &HostRuntime, operation: &str, size: &str) -> io::Result<()> {
    let size = size.parse::<u32>().unwrap_or(0);
    match states_after(rt.alloc(), operation, size)? {
        Some(states) => println!(rt; "{operation} {size}: {states}"),
        None => println!(rt; "no such operation: {operation}"),
    }
}

/// Tells what the operations of these rows make.
fn tell_rows(rt: &HostRuntime, rows: &str) -> io::Result<()> {
    'rows: for row in rows.lines() {
        if row.is_empty() || row.starts_with('#') {
            continue;
        }
        let (operation, size) = row.rsplit_once(' ').unwrap_or((row, ""));
        tell(rt, operation, size)?;
    }
    Ok(())
}

fn main(rt: HostRuntime) -> io::Result<()> {
    let words: Vec<String> = env::args(&rt)?.collect(rt.alloc())?;
    if let [_, operation, size] = words.as_slice() {
        return tell(&rt, operation, size);
    }
    let mut rows = String::new(rt.alloc());
    rt.stdin().read_to_string(&mut rows)?;
    tell_rows(&rt, rows.as_str())
}
