ghost use Rattle.std.specs.Prelude.{◌≡◌, ◌≢◌, ◌↔◌, IfOk, IsTrue};
ghost use Rattle.lexc_grammar.specs.Entries.{hash, next_of};
ghost use Rattle.lexc_grammar.specs.Files.{spelling};
ghost use Rattle.lexc_grammar.specs.declared.statements.Keyword.TheVariants as keywords;
ghost use Rattle.lexc_reader.specs.Words.{IsKeyword};

use fsm_base::Text;
use lexc_forms::{Letter, SharedTexts};
use lexc_grammar::Keyword;
use std::alloc::{AllocError, Global};

/// Whether a word is `#`, which ends a path.
fn is_hash(letters: &[Letter]) -> bool
    ensures { IsTrue result ↔ (letters.now ≡ hash) }
{
    matches!(letters, [Letter::Plain('#')])
}

/// Whether a word may name a lexicon: any but `#`.
pub fn is_name(letters: &[Letter]) -> bool
    ensures { IsTrue result ↔ (letters.now ≢ hash) }
{
    !is_hash(letters)
}

/// Whether a word is `Multichar_Symbols`.
fn is_symbols(letters: &[Letter]) -> bool
    ensures { IsTrue result ↔ (letters.now ≡ spelling keywords.Symbols) }
{
    letters
        == [
            Letter::Plain('M'),
            Letter::Plain('u'),
            Letter::Plain('l'),
            Letter::Plain('t'),
            Letter::Plain('i'),
            Letter::Plain('c'),
            Letter::Plain('h'),
            Letter::Plain('a'),
            Letter::Plain('r'),
            Letter::Plain('_'),
            Letter::Plain('S'),
            Letter::Plain('y'),
            Letter::Plain('m'),
            Letter::Plain('b'),
            Letter::Plain('o'),
            Letter::Plain('l'),
            Letter::Plain('s'),
        ]
        .as_slice()
}

/// Whether a word is `LEXICON`.
fn is_lexicon(letters: &[Letter]) -> bool
    ensures { IsTrue result ↔ (letters.now ≡ spelling keywords.Lexicon) }
{
    letters
        == [
            Letter::Plain('L'),
            Letter::Plain('E'),
            Letter::Plain('X'),
            Letter::Plain('I'),
            Letter::Plain('C'),
            Letter::Plain('O'),
            Letter::Plain('N'),
        ]
        .as_slice()
}

/// Whether a word is `END`.
fn is_end(letters: &[Letter]) -> bool
    ensures { IsTrue result ↔ (letters.now ≡ spelling keywords.End) }
{
    matches!(
        letters,
        [Letter::Plain('E'), Letter::Plain('N'), Letter::Plain('D')]
    )
}

/// The keyword that a word is; `None` where it is none.
pub fn keyword(letters: &[Letter]) -> Option<Keyword>
    ensures { IsKeyword letters.now result }
{
    if is_symbols(letters) {
        Some(Keyword::Symbols)
    } else if is_lexicon(letters) {
        Some(Keyword::Lexicon)
    } else if is_end(letters) {
        Some(Keyword::End)
    } else {
        None
    }
}

/// The lexicon that a word names; `None` where it is `#`.
pub fn next_of(
    alloc: Global,
    texts: &mut SharedTexts,
    letters: &[Letter],
) -> Result<Option<Text>, AllocError>
    ensures { IfOk result (λ next. next ≡ next_of letters.now) }
{
    if is_hash(letters) {
        return Ok(None);
    }
    Ok(Some(texts.of_word(alloc, letters)?))
}
