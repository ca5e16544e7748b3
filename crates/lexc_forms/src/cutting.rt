ghost use Rattle.std.specs.Prelude.{◌≡◌, ◌≤◌, ◌++◌, ◌∷◌, ℕ, List, false, IfOk, OnOk, MatchOption, length, take};
ghost use Rattle.std.specs.Str.{encode_utf8_all};
ghost use Rattle.regex_ast.specs.declared.expr.Raw.{Raw};
ghost use Rattle.lexc_forms.specs.Forms.{CutsInto, HasNoPiece, IsCutFront, IsLongestPiece, alone, is_nothing, symbol_of};

use crate::flags::{encode, flag_front};
use crate::letters::{Letter, characters};
use crate::sharing::SharedTexts;
use crate::table::DeclaredSymbols;
use regex_ast::{Piece, Raw};
use std::alloc::{AllocError, Global};

/// The first characters of a text as a symbol.
fn symbol_front(alloc: Global, text: &[char], len: usize) -> Result<Piece<Raw>, AllocError>
    requires { len ≤ length text.now }
    ensures { IfOk result (λ piece. piece ≡ symbol_of (take len text.now)) }
{
    let (front, _) = text.split_at(len);
    Ok(Piece::Symbol(Raw::Quoted(encode(alloc, front)?)))
}

/// Whether a declared symbol or a flag may begin with a character.
fn may_begin(declared: &DeclaredSymbols, character: char) -> bool
    ensures { result ≡ false → (behind : List ℕ) → HasNoPiece declared.now (character ∷ behind) }
{
    character == '@' || declared.may_begin_with(character)
}

/// The longest declared symbol or flag that begins a text, and how many characters it has.
fn longest_piece(
    alloc: Global,
    declared: &DeclaredSymbols,
    text: &[char],
) -> Result<Option<(Piece<Raw>, usize)>, AllocError>
    ensures { IfOk result (λ found. MatchOption found (HasNoPiece declared.now text.now) (λ f. IsLongestPiece declared.now text.now f.1 f.0)) }
{
    let symbol = declared.longest_front(text);
    match flag_front(alloc, text)? {
        None => match symbol {
            None => Ok(None),
            Some(len) => Ok(Some((symbol_front(alloc, text, len)?, len))),
        },
        Some((flag, flag_len)) => match symbol {
            None => Ok(Some((Piece::Flag(flag), flag_len))),
            Some(len) => {
                if len <= flag_len {
                    return Ok(Some((Piece::Flag(flag), flag_len)));
                }
                Ok(Some((symbol_front(alloc, text, len)?, len)))
            }
        },
    }
}

/// The longest declared symbol or flag that begins a text, and how many characters it has. It is looked for only where one may
/// begin with the first character.
fn piece_front(
    alloc: Global,
    declared: &DeclaredSymbols,
    text: &[char],
) -> Result<Option<(Piece<Raw>, usize)>, AllocError>
    ensures { IfOk result (λ found. MatchOption found (HasNoPiece declared.now text.now) (λ f. IsLongestPiece declared.now text.now f.1 f.0)) }
{
    if let Some((first, _)) = text.split_first() {
        if !may_begin(declared, *first) {
            return Ok(None);
        }
    }
    longest_piece(alloc, declared, text)
}

/// Whether a letter gives nothing where no symbol and no flag begins: a `0` that isn't escaped.
fn is_nothing(letter: Letter) -> bool
    ensures { result ≡ is_nothing letter }
{
    match letter {
        Letter::Plain(character) => character == '0',
        Letter::Escaped(_) => false,
    }
}

/// Puts what a letter gives alone behind pieces.
fn push_alone(
    alloc: Global,
    texts: &mut SharedTexts,
    letter: Letter,
    pieces: &mut Vec<Piece<Raw>>,
) -> Result<(), AllocError>
    ensures { OnOk result (pieces.new.items ≡ pieces.old.items ++ alone letter) }
{
    if is_nothing(letter) {
        return Ok(());
    }
    let symbol = texts.of_character(alloc, letter.character())?;
    pieces.push(Piece::Symbol(Raw::Quoted(symbol)))?;
    Ok(())
}

/// The pieces of the letters in front of the first with whose character a declared symbol or a flag may begin, and how many
/// these letters are.
fn cut_front(
    alloc: Global,
    declared: &DeclaredSymbols,
    texts: &mut SharedTexts,
    letters: &[Letter],
) -> Result<(Vec<Piece<Raw>>, usize), AllocError>
    ensures { IfOk result (λ front. IsCutFront declared.now letters.now front.1 front.0.items) }
{
    let mut pieces = Vec::with_capacity(alloc, letters.len())?;
    'letters: for (index, letter) in letters.iter().enumerate() {
        if may_begin(declared, letter.character()) {
            return Ok((pieces, index));
        }
        push_alone(alloc, texts, *letter, &mut pieces)?;
    }
    Ok((pieces, letters.len()))
}

/// The pieces of letters, from left to right: at each place the longest declared symbol or flag diacritic that begins there,
/// whether its characters are escaped or not. Where none begins, a `0` that isn't escaped gives nothing, and any other letter
/// is a symbol. What comes often is shared by way of `texts`.
pub fn cut(
    alloc: Global,
    declared: &DeclaredSymbols,
    texts: &mut SharedTexts,
    letters: &[Letter],
) -> Result<Vec<Piece<Raw>>, AllocError>
    ensures { IfOk result (λ pieces. CutsInto declared.now letters.now pieces.items) }
{
    let (mut pieces, cut) = cut_front(alloc, declared, texts, letters)?;
    let mut rest = letters.split_at(cut).1;
    let characters = characters(alloc, rest)?;
    let mut text = characters.as_slice();
    'rest: while let Some((first, others)) = rest.split_first() {
        match piece_front(alloc, declared, text)? {
            Some((piece, len)) => {
                pieces.push(piece)?;
                rest = rest.split_at(len).1;
                text = text.split_at(len).1;
            }
            None => {
                push_alone(alloc, texts, *first, &mut pieces)?;
                rest = others;
                text = text.split_at(1).1;
            }
        }
    }
    Ok(pieces)
}
