ghost use Rattle.std.specs.Prelude.{◌≡◌, ◌↔◌, ◌<◌, ◌+◌, ◌++◌, ◌∷◌, [], All, Contains, decimal, IfOk, OnOk, IsPermutation, IsTrue, List, ℕ, length};
ghost use Rattle.std.specs.Option.{option_map};
ghost use Rattle.std.specs.String.{string_bytes};
ghost use Rattle.word_relations.specs.Words.{IsDistinct};
ghost use Rattle.fsm_base.specs.Alphabet.{symbols_of, text_of, texts_of};
ghost use Rattle.fsm_base.specs.declared.letters.Pair.{Pair};
ghost use Rattle.fsa.specs.declared.automaton.Edge.{Edge};
ghost use Rattle.fsa.specs.Automaton.{IsFinal};
ghost use Rattle.att_text.specs.Lines.{arc, final, said_in};
ghost use Rattle.att_text.specs.Paths.{Relates, RelatesTexts};
ghost use Rattle.att_text.specs.Sides.{lower_side, upper_side};
ghost use Rattle.att_text.specs.Writing.{BeginsWith, HasTextOf, IsAttText, IsField, UsesOnly, fields_saying, side_field};
ghost use Rattle.att_text.specs.Written.{AddsArcs, IsEdgeOf, IsWriting, MayBeOf};

use crate::states::StateTable;
use fsa::{Edge, Fsa};
use fsa_explore::EdgesByState;
use fsm_base::{Alphabet, Pair, Sym};
use itoa::Buffer;
use std::alloc::{AllocError, Global};

/// The symbols on the sides of a letter.
fn sides_of(letter: Option<Pair>) -> (Option<Sym>, Option<Sym>)
    ensures upper { result.0 ≡ upper_side letter }
    ensures lower { result.1 ≡ lower_side letter }
{
    match letter {
        Some(pair) => (pair.up, pair.low),
        None => (None, None),
    }
}

/// Writes a state.
fn push_state(text: &mut String, state: usize) -> Result<(), AllocError>
    ensures { OnOk result (string_bytes text.new ≡ string_bytes text.old ++ decimal state) }
{
    let mut digits = Buffer::new();
    text.push_str(digits.format(state))?;
    Ok(())
}

/// Writes the field of a side.
fn push_side(
    alloc: Global,
    text: &mut String,
    side: Option<Sym>,
    alphabet: &Alphabet,
) -> Result<(), AllocError>
    requires { MayBeOf alphabet.now side }
    ensures { OnOk result (string_bytes text.new ≡ string_bytes text.old ++ side_field (option_map (text_of alphabet.now) side)) }
{
    match side {
        Some(symbol) => text.push_str(alphabet.text(alloc, &[symbol])?.as_str())?,
        None => text.push_str("@0@")?,
    }
    Ok(())
}

/// Writes the line of an arc between two states.
fn push_arc(
    alloc: Global,
    text: &mut String,
    from: usize,
    to: usize,
    letter: Option<Pair>,
    alphabet: &Alphabet,
) -> Result<(), AllocError>
    requires upper { MayBeOf alphabet.now (upper_side letter) }
    requires lower { MayBeOf alphabet.now (lower_side letter) }
    ensures { OnOk result (string_bytes text.new ≡ string_bytes text.old ++ (fields_saying (arc from to (option_map (text_of alphabet.now) (upper_side letter)) (option_map (text_of alphabet.now) (lower_side letter))) ++ 10 ∷ [])) }
{
    let (up, low) = sides_of(letter);
    push_state(text, from)?;
    text.push('\t')?;
    push_state(text, to)?;
    text.push('\t')?;
    push_side(alloc, text, up, alphabet)?;
    text.push('\t')?;
    push_side(alloc, text, low, alphabet)?;
    text.push('\n')?;
    Ok(())
}

/// Writes the line of a final state.
fn push_final(text: &mut String, state: usize) -> Result<(), AllocError>
    ensures { OnOk result (string_bytes text.new ≡ string_bytes text.old ++ (fields_saying (final state) ++ 10 ∷ [])) }
{
    push_state(text, state)?;
    text.push('\n')?;
    Ok(())
}

/// Writes the edges of the state at a place. The states that they enter get places, where they have none.
fn push_arcs(
    alloc: Global,
    text: &mut String,
    states: &mut StateTable,
    place: usize,
    edges: &[Edge<Pair>],
    alphabet: &Alphabet,
) -> Result<(), AllocError>
    requires once { IsDistinct states.old }
    requires symbols { (e : Edge Pair) → Contains edges.now e → IsEdgeOf alphabet.now e }
    requires fields { All IsField (texts_of alphabet.now) }
    ensures { OnOk result (AddsArcs alphabet.now place edges.now (length edges.now) (string_bytes text.old) (string_bytes text.new) states.old states.new) }
{
    'edges: for edge in edges {
        let to = states.place_of(edge.to as u64)?;
        push_arc(alloc, text, place, to, edge.letter, alphabet)?;
    }
    Ok(())
}

/// Whether a state is final.
fn is_final(net: &Fsa<Pair>, state: u64) -> bool
    ensures { IsTrue result ↔ IsFinal net.now state }
{
    matches!(net.finals().get(state as usize), Some(true))
}

/// Writes the state at a place: its edges, and whether it is final.
fn push_lines(
    alloc: Global,
    text: &mut String,
    states: &mut StateTable,
    place: usize,
    net: &Fsa<Pair>,
    rows: &EdgesByState<Pair>,
    alphabet: &Alphabet,
) -> Result<(), AllocError>
    requires place { place < length states.old }
    requires rows { IsPermutation net.now.edges rows.now }
    requires symbols { (e : Edge Pair) → Contains net.now.edges e → IsEdgeOf alphabet.now e }
    requires fields { All IsField (texts_of alphabet.now) }
    requires writing { IsWriting alphabet.now net.now states.old place (string_bytes text.old) }
    ensures { OnOk result (IsWriting alphabet.now net.now states.new (place + 1) (string_bytes text.new)) }
{
    let state = states.state_at(place);
    push_arcs(
        alloc,
        text,
        states,
        place,
        rows.out(state as usize),
        alphabet,
    )?;
    if is_final(net, state) {
        push_final(text, place)?;
    }
    Ok(())
}

/// The AT&T text of a network, whose symbols are of the alphabet.
///
/// States are numbered in the order in which they are found from the start, breadth first, and each is written in that order: its edges,
/// and then whether it is final. States that aren't found are left out. Takes time in proportion to the edges and the text.
pub fn write_att(alloc: Global, net: &Fsa<Pair>, alphabet: &Alphabet) -> Result<Vec<u8>, AllocError>
    requires symbols { UsesOnly (symbols_of alphabet.now) net.now }
    requires fields { All IsField (texts_of alphabet.now) }
    ensures text { IfOk result (λ bytes. IsAttText bytes.items) }
    ensures relation { IfOk result (λ bytes. (upper lower : List (List ℕ)) → Relates bytes.items upper lower ↔ RelatesTexts (HasTextOf alphabet.now) net.now upper lower) }
    ensures start { IfOk result (λ bytes. BeginsWith 0 (said_in bytes.items)) }
{
    let rows = EdgesByState::of(alloc, net.edges())?;
    let mut text = String::new(alloc);
    let mut states = StateTable::new(alloc);
    states.place_of(0)?;
    let mut place = 0;
    'places: while place < states.len() {
        push_lines(alloc, &mut text, &mut states, place, net, &rows, alphabet)?;
        place += 1;
    }
    Ok(text.into_bytes())
}
