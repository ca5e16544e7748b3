ghost use Rattle.std.specs.Prelude.{◌↔◌, ◌<◌, Some, None, IfOk, OnOk, List, Contains, Option, IsSortedByKey, length};
ghost use Rattle.word_relations.specs.Words.{Translates};
ghost use Rattle.fsa.specs.Automaton.{UsesLetter};
ghost use Rattle.fsa.specs.Language.{Accepts};
ghost use Rattle.fsa_rational.specs.Shapes.{Extends, ComesFrom, ImageOf, PreimageOf, LoopsBelow, loop_at};

use crate::extend::{add_epsilon, same_states};
use crate::rows::{rows_at, sorted_rows};
use fsa::{Edge, Fsa};
use fsm_base::Letter;
use std::alloc::{AllocError, Global};

/// The automaton of the words that the table gives for the words of `a`, letter by letter; a letter for which it
/// gives none is left out. A letter that has no row stands in no word for which the table gives one, and a letter
/// that has several rows stands for each.
pub fn image<L: Letter, M: Letter>(
    alloc: Global,
    a: &Fsa<L>,
    table: &[(L, Option<M>)],
) -> Result<Fsa<M>, AllocError>
    ensures letters { IfOk result (λ m. (y : M) → UsesLetter m y → (x : L) × Contains table.now (x, Some y)) }
    ensures language { IfOk result (λ m. (w : List M) → Accepts m w ↔ ((v : List L) × Accepts a.now v × Translates table.now v w)) }
{
    let rows = sorted_rows(Vec::from_slice(alloc, table)?);
    let mut m = same_states(alloc, a)?;
    for edge in a.edges() {
        add_image(&mut m, edge, &rows)?;
    }
    Ok(m)
}

/// Adds the edges that the rows give for an edge.
fn add_image<L: Letter, M: Letter>(
    m: &mut Fsa<M>,
    edge: &Edge<L>,
    rows: &[(L, Option<M>)],
) -> Result<(), AllocError>
    requires from { edge.now.from < length m.old.finals }
    requires to { edge.now.to < length m.old.finals }
    requires sorted { IsSortedByKey (λ row. row.0) L.cmp rows.now }
    ensures { OnOk result (Extends m.old m.new (ImageOf rows.now edge.now)) }
{
    let Some(letter) = edge.letter else {
        return add_epsilon(m, edge.from, edge.to);
    };
    for row in rows_at(rows, letter) {
        m.add_edge(Edge {
            from: edge.from,
            letter: row.1,
            to: edge.to,
        })?;
    }
    Ok(())
}

/// The automaton of the words for which the table gives a word of `a`, letter by letter; a letter for which it
/// gives none may stand anywhere. A letter that has no row stands in none of the words.
pub fn preimage<L: Letter, M: Letter>(
    alloc: Global,
    a: &Fsa<M>,
    table: &[(L, Option<M>)],
) -> Result<Fsa<L>, AllocError>
    ensures letters { IfOk result (λ m. (x : L) → UsesLetter m x → (y : Option M) × Contains table.now (x, y)) }
    ensures language { IfOk result (λ m. (v : List L) → Accepts m v ↔ ((w : List M) × Accepts a.now w × Translates table.now v w)) }
{
    let rows = sorted_rows(kept_rows(alloc, table)?);
    let mut m = same_states(alloc, a)?;
    for edge in a.edges() {
        add_preimage(&mut m, edge, &rows)?;
    }
    add_loops(&mut m, &omitted_letters(alloc, table)?)?;
    Ok(m)
}

/// The rows that give a letter, each as that letter and the one that it stands for.
fn kept_rows<L: Letter, M: Letter>(
    alloc: Global,
    table: &[(L, Option<M>)],
) -> Result<Vec<(M, L)>, AllocError>
    ensures { IfOk result (λ rows. (row : M × L) → Contains rows.items row ↔ Contains table.now (row.1, Some row.0)) }
{
    let mut rows = Vec::new(alloc);
    for row in table {
        if let Some(letter) = row.1 {
            rows.push((letter, row.0))?;
        }
    }
    Ok(rows)
}

/// The letters for which the table gives none.
fn omitted_letters<L: Letter, M: Letter>(
    alloc: Global,
    table: &[(L, Option<M>)],
) -> Result<Vec<L>, AllocError>
    ensures { IfOk result (λ letters. (x : L) → Contains letters.items x ↔ Contains table.now (x, None)) }
{
    let mut letters = Vec::new(alloc);
    for row in table {
        if row.1.is_none() {
            letters.push(row.0)?;
        }
    }
    Ok(letters)
}

/// Adds the edges for which the table gives an edge's letter.
fn add_preimage<L: Letter, M: Letter>(
    m: &mut Fsa<L>,
    edge: &Edge<M>,
    rows: &[(M, L)],
) -> Result<(), AllocError>
    requires from { edge.now.from < length m.old.finals }
    requires to { edge.now.to < length m.old.finals }
    requires sorted { IsSortedByKey (λ row. row.0) M.cmp rows.now }
    ensures { OnOk result (Extends m.old m.new (PreimageOf rows.now edge.now)) }
{
    let Some(letter) = edge.letter else {
        return add_epsilon(m, edge.from, edge.to);
    };
    for row in rows_at(rows, letter) {
        m.add_edge(Edge {
            from: edge.from,
            letter: Some(row.1),
            to: edge.to,
        })?;
    }
    Ok(())
}

/// Adds an edge from each state to itself for each letter.
fn add_loops<L: Letter>(m: &mut Fsa<L>, letters: &[L]) -> Result<(), AllocError>
    ensures { OnOk result (Extends m.old m.new (LoopsBelow (length m.old.finals) letters.now)) }
{
    for state in 0..m.states() {
        add_loops_at(m, state, letters)?;
    }
    Ok(())
}

/// Adds an edge from a state to itself for each letter.
fn add_loops_at<L: Letter>(m: &mut Fsa<L>, state: usize, letters: &[L]) -> Result<(), AllocError>
    requires { state < length m.old.finals }
    ensures { OnOk result (Extends m.old m.new (ComesFrom (loop_at state) letters.now)) }
{
    for letter in letters {
        m.add_edge(Edge {
            from: state,
            letter: Some(*letter),
            to: state,
        })?;
    }
    Ok(())
}
