ghost use Rattle.std.specs.Prelude.{◌≡◌, ◌<◌, IfOk};
ghost use Rattle.word_relations.specs.Words.{IsOver, joined};
ghost use Rattle.fsm_base.specs.Alphabet.{spelled, symbols_of};
ghost use Rattle.word_relations.specs.Answers.{Answers, IsLoop, loop};
ghost use Rattle.lookup.specs.Graph.{IsWithin};
ghost use Rattle.lookup.specs.Turns.{IsTurn};
ghost use Rattle.lookup.specs.GraphTexts.{AreOf, GraphTexts};
ghost use Rattle.lookup_answers.specs.Answers.{found_of};
ghost use Rattle.lookup_walk.specs.Answering.{IsOverAlphabet, LowerTexts, TextsBy, UpperTexts};

use crate::kept::useful;
use crate::part::part_of;
use crate::texts::texts_of;
use crate::turns::{Turn, find_turn};
use fsa::Edge;
use fsm_base::{Alphabet, Sym};
use lookup_answers::{Answer, Direction};
use lookup_walk::{Net, walked};
use std::alloc::{AllocError, Global};

/// The upper words that a network relates to a lower word, as texts of the alphabet.
///
/// Only the part of the network that the word reaches is looked at (Beesley and Karttunen, Finite State
/// Morphology, 2003, chapter 1).
pub fn up(alloc: Global, net: &Net, alphabet: &Alphabet, word: &[Sym]) -> Result<Answer, AllocError>
    requires { IsOverAlphabet alphabet.now net.now }
    ensures { IfOk result (λ answer. Answers (UpperTexts net.now alphabet.now word.now) (found_of answer)) }
{
    look(alloc, net, Direction::Up, alphabet, word)
}

/// The lower words that a network relates to an upper word, as texts of the alphabet.
///
/// Only the part of the network that the word reaches is looked at (Beesley and Karttunen, Finite State
/// Morphology, 2003, chapter 1).
pub fn down(
    alloc: Global,
    net: &Net,
    alphabet: &Alphabet,
    word: &[Sym],
) -> Result<Answer, AllocError>
    requires { IsOverAlphabet alphabet.now net.now }
    ensures { IfOk result (λ answer. Answers (LowerTexts net.now alphabet.now word.now) (found_of answer)) }
{
    look(alloc, net, Direction::Down, alphabet, word)
}

/// The words that a network relates to a word, in one direction or the other. Most words have few paths, and are answered by
/// taking these; a search that puts together what goes on alike answers the others.
fn look(
    alloc: Global,
    net: &Net,
    direction: Direction,
    alphabet: &Alphabet,
    word: &[Sym],
) -> Result<Answer, AllocError>
    requires { IsOverAlphabet alphabet.now net.now }
    ensures { IfOk result (λ answer. Answers (TextsBy direction net.now alphabet.now word.now) (found_of answer)) }
{
    if let Some(texts) = walked(alloc, net, direction, alphabet, word)? {
        return Ok(Answer::Strings(texts));
    }
    let answer = search(alloc, net, direction, alphabet, word)?;
    Ok(answer)
}

/// The words that a network relates to a word, by the part of the network that the word reaches.
fn search(
    alloc: Global,
    net: &Net,
    direction: Direction,
    alphabet: &Alphabet,
    word: &[Sym],
) -> Result<Answer, AllocError>
    requires { IsOverAlphabet alphabet.now net.now }
    ensures { IfOk result (λ answer. Answers (TextsBy direction net.now alphabet.now word.now) (found_of answer)) }
{
    let part = part_of(alloc, net, direction, word)?;
    let edges = useful(alloc, &part.edges, part.count)?;
    let answer = answer_of(alloc, alphabet, &edges, part.count)?;
    Ok(answer)
}

/// The texts of a graph whose edges all stand on paths from its start to its end.
fn answer_of(
    alloc: Global,
    alphabet: &Alphabet,
    edges: &[Edge<Sym>],
    count: usize,
) -> Result<Answer, AllocError>
    requires within { IsWithin edges.now count }
    requires start { 1 < count }
    requires symbols { AreOf alphabet.now edges.now }
    ensures { IfOk result (λ answer. Answers (GraphTexts alphabet.now edges.now) (found_of answer)) }
{
    if let Some(turn) = find_turn(alloc, edges, count)? {
        let found = loop_of(alloc, alphabet, edges, &turn)?;
        return Ok(found);
    }
    match texts_of(alloc, edges, count, alphabet)? {
        Some(texts) => Ok(Answer::Strings(texts)),
        None => Ok(Answer::More),
    }
}

/// The loop of a graph, as an answer.
fn loop_of(
    alloc: Global,
    alphabet: &Alphabet,
    edges: &[Edge<Sym>],
    turn: &Turn<Sym>,
) -> Result<Answer, AllocError>
    requires symbols { AreOf alphabet.now edges.now }
    requires turn { IsTurn edges.now turn.now.before.items turn.now.round.items turn.now.after.items }
    ensures { IfOk result (λ answer. Answers (GraphTexts alphabet.now edges.now) (found_of answer)) }
{
    let _ = alphabet.symbols();
    Ok(Answer::Loop {
        before: alphabet.text(alloc, &turn.before)?,
        round: alphabet.text(alloc, &turn.round)?,
        after: alphabet.text(alloc, &turn.after)?,
    })
}
