ghost use Rattle.std.specs.Prelude.{◌≡◌, ◌<◌, ◌≤◌, ◌+◌, ◌++◌, ◌⊎◌, [], ◌∷◌, ℕ, List, Contains, IfOk, IfSome, IfNone, OnOk, IsUtf8, MatchBool, length};
ghost use Rattle.fsa.specs.declared.automaton.Edge.{Edge};
ghost use Rattle.word_relations.specs.Answers.{AreAll, AreMore, most_answers};
ghost use Rattle.lookup.specs.Graph.{Leads};
ghost use Rattle.lookup.specs.declared.walk.Byte.{Byte};
ghost use Rattle.lookup.specs.Listings.{AddsText, IsListing};
ghost use Rattle.lookup.specs.Walks.{IsWalk, WritesText};

use crate::walk::Walk;
use fsm_base::Text;
use lookup_answers::MOST_ANSWERS;
use std::alloc::{AllocError, Global};
use std::str;

/// All texts of the graph of a walk that stands at its beginning, each once and in the order of bytes, or None
/// where they are more than are listed. Each edge leads to the end, so that the walk turns back only behind a text
/// that it lists.
pub(crate) fn listed(alloc: Global, walk: &mut Walk) -> Result<Option<Vec<Text>>, AllocError>
    requires walk { IsWalk walk.old }
    requires text { walk.old.text.items ≡ [] }
    requires floor { walk.old.floor ≡ 0 }
    requires useful { (e : Edge Byte) → Contains walk.old.rows e → Leads walk.old.rows e.to 0 }
    requires short { (text : List ℕ) → WritesText walk.old.rows text → length text ≤ walk.old.marked.bound }
    requires utf8 { (text : List ℕ) → WritesText walk.old.rows text → IsUtf8 text }
    ensures all { IfOk result (λ found. IfSome found (λ texts. AreAll (WritesText walk.old.rows) texts.items)) }
    ensures more { IfOk result (λ found. IfNone found (AreMore (WritesText walk.old.rows))) }
{
    let mut found = Vec::new(alloc);
    add(alloc, walk, &mut found)?;
    'moves: loop {
        match walk.next() {
            Some(byte) => {
                walk.enter(alloc, byte)?;
                if !add(alloc, walk, &mut found)? {
                    return Ok(None);
                }
            }
            None => {
                if !walk.leave() {
                    return Ok(Some(found));
                }
            }
        }
    }
}

/// Adds the text that the walk stands at, if the graph writes it. Gives false where it does and no more texts are
/// listed.
fn add(alloc: Global, walk: &Walk, found: &mut Vec<Text>) -> Result<bool, AllocError>
    requires walk { IsWalk walk.now }
    requires utf8 { WritesText walk.now.rows walk.now.text.items → IsUtf8 walk.now.text.items }
    requires few { length found.old.items ≤ most_answers }
    ensures few { OnOk result (length found.new.items ≤ most_answers) }
    ensures added { IfOk result (λ fits. MatchBool fits (AddsText walk.now.rows walk.now.text.items found.old.items found.new.items) (WritesText walk.now.rows walk.now.text.items × (found.new.items ≡ found.old.items) × (length found.old.items ≡ most_answers))) }
{
    if walk.is_at_end() {
        if found.len() == MOST_ANSWERS {
            return Ok(false);
        }
        found.push(text_of(alloc, &walk.text)?)?;
    }
    Ok(true)
}

/// The bytes as a text.
fn text_of(alloc: Global, bytes: &[u8]) -> Result<Text, AllocError>
    requires { IsUtf8 bytes.now }
    ensures { IfOk result (λ text. text ≡ bytes.now) }
{
    match str::from_utf8(bytes) {
        Ok(text) => {
            let text = Text::of(alloc, text)?;
            Ok(text)
        }
        Err(_) => unreachable!(),
    }
}
