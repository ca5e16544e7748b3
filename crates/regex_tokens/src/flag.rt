ghost use Rattle.std.specs.Prelude.{◌≡◌, ◌↔◌, IsTrue};
ghost use Rattle.regex_ast.specs.Flags.{IsFlag};
ghost use Rattle.regex_tokens.specs.Reading.{is_flag, is_behind_kind, is_behind_feature, is_value, has_value, has_no_value};

use crate::bytes::{ByteClass, split};

/// Whether the text is a flag diacritic, `@X.F.V@` or `@X.F@` (Beesley and Karttunen, Finite State Morphology,
/// 2003, chapter 7).
pub fn is_flag(text: &[u8]) -> bool
    ensures flag { IsTrue result ↔ IsFlag text.now }
    ensures test { result ≡ is_flag text.now }
{
    passes(text)
}

/// Whether the text passes the test, byte by byte.
fn passes(text: &[u8]) -> bool
    ensures { result ≡ is_flag text.now }
{
    match text {
        [b'@', kind, b'.', behind @ ..] => is_behind_kind(*kind, behind),
        _ => false,
    }
}

fn is_behind_kind(kind: u8, text: &[u8]) -> bool
    ensures { result ≡ is_behind_kind kind text.now }
{
    let (feature, behind) = split(text, ByteClass::Feature);
    !feature.is_empty() && is_behind_feature(kind, behind)
}

fn is_behind_feature(kind: u8, text: &[u8]) -> bool
    ensures { result ≡ is_behind_feature kind text.now }
{
    match text {
        [b'@'] => matches!(kind, b'C' | b'R' | b'D'),
        [b'.', value @ ..] => matches!(kind, b'P' | b'U' | b'R' | b'D' | b'N') && is_value(value),
        _ => false,
    }
}

fn is_value(text: &[u8]) -> bool
    ensures { result ≡ is_value text.now }
{
    let (value, behind) = split(text, ByteClass::Feature);
    !value.is_empty() && matches!(behind, [b'@'])
}
