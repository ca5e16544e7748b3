ghost use Rattle.std.specs.Prelude.{◌≡◌, ◌++◌, ◌∷◌, List, ℕ, [], chars, IfOk, OnOk};
ghost use Rattle.std.specs.String.{string_bytes};
ghost use Rattle.interlinear.specs.Words.{is_among, pieces_of, pieces_from, words_of};

use fsm_base::Text;
use std::alloc::{AllocError, Global};

/// What stands between the words of a line.
const BETWEEN_WORDS: [char; 11] = [' ', '\t', '.', ',', ';', ':', '!', '?', '(', ')', '"'];

/// Whether a character is one of these.
fn is_among(ends: &[char], character: char) -> bool
    ensures { result ≡ is_among ends.now character }
{
    ends.contains(&character)
}

/// Ends a piece.
fn end_piece(alloc: Global, piece: &mut String, pieces: &mut Vec<Text>) -> Result<(), AllocError>
    ensures piece { OnOk result (string_bytes piece.new ≡ []) }
    ensures pieces { OnOk result (pieces.new.items ≡ pieces.old.items ++ string_bytes piece.old ∷ []) }
{
    let whole = std::mem::replace(piece, String::new(alloc));
    pieces.push(Text::from_string(whole)?)?;
    Ok(())
}

/// Puts a character behind what was read of its piece, or ends the piece.
fn add_to_piece(
    alloc: Global,
    ends: &[char],
    character: char,
    piece: &mut String,
    pieces: &mut Vec<Text>,
) -> Result<(), AllocError>
    ensures { OnOk result ((rest : List ℕ) → pieces.new.items ++ pieces_from ends.now (string_bytes piece.new) rest ≡ pieces.old.items ++ pieces_from ends.now (string_bytes piece.old) (character ∷ rest)) }
{
    if is_among(ends, character) {
        return end_piece(alloc, piece, pieces);
    }
    piece.push(character)
}

/// The pieces of a text between these characters. Where two of them stand side by side, or one at an end, there is an
/// empty piece.
pub(crate) fn pieces_of(alloc: Global, ends: &[char], text: &str) -> Result<Vec<Text>, AllocError>
    ensures { IfOk result (λ pieces. pieces.items ≡ pieces_of ends.now text.now) }
{
    let mut pieces = Vec::new(alloc);
    let mut piece = String::new(alloc);
    for character in text.chars() {
        add_to_piece(alloc, ends, character, &mut piece, &mut pieces)?;
    }
    end_piece(alloc, &mut piece, &mut pieces)?;
    Ok(pieces)
}

/// The words of a line, in order: the longest runs of characters other than space, tab and `. , ; : ! ? ( ) "`.
pub fn words_of(alloc: Global, line: &str) -> Result<Vec<Text>, AllocError>
    ensures { IfOk result (λ words. words.items ≡ words_of line.now) }
{
    let mut words = pieces_of(alloc, &BETWEEN_WORDS, line)?;
    words.retain(|word| !word.as_str().is_empty());
    Ok(words)
}
