ghost use Rattle.std.specs.Prelude.{◌≡◌, ◌==◌};
ghost use Rattle.std.specs.List.{list_any, prefix_len};
ghost use Rattle.regex_tokens.specs.Bytes.{begins, is_blank, is_escapable, is_run_byte};
ghost use Rattle.regex_tokens.specs.Cuts.{newlines};
ghost use Rattle.regex_tokens.specs.Reading.{IsPiecesLen, is_of, piece_len, taken, left};

/// What the bytes of a part of the text may be.
#[derive(Clone, Copy, Debug, PartialEq, Eq)]
pub enum ByteClass {
    /// Space, tab and newline.
    Blank,
    /// Any but a newline.
    Line,
    /// What a run is made of.
    Run,
    /// What stands between quotes.
    Quoted,
    /// What stands between braces.
    Braced,
    /// What a flag's feature and value are made of.
    Feature,
}

/// What a run has none of without an escape, among the bytes that can be seen.
const SPECIAL: &[u8] = b"[](){}|/\\&-~$*+^:;,?_.<>=!#@\"%";

impl ByteClass {
    /// Whether a byte is of the class.
    pub fn has(self, byte: u8) -> bool
        ensures { result ≡ is_of self byte }
    {
        match self {
            ByteClass::Blank => is_blank(byte),
            ByteClass::Line => byte != b'\n',
            ByteClass::Run => is_run_byte(byte),
            ByteClass::Quoted => !matches!(byte, b'"' | b'\\' | b'\t' | b'\n'),
            ByteClass::Braced => !matches!(byte, b'}' | b'%' | b'\t' | b'\n'),
            ByteClass::Feature => !is_blank(byte) && byte != b'.' && byte != b'@',
        }
    }
}

/// Whether a byte is a space, a tab or a newline.
pub fn is_blank(byte: u8) -> bool
    ensures { result ≡ is_blank byte }
{
    matches!(byte, b' ' | b'\t' | b'\n')
}

/// Whether a byte may stand in a run without an escape.
pub fn is_run_byte(byte: u8) -> bool
    ensures { result ≡ is_run_byte byte }
{
    !is_blank(byte) && !SPECIAL.contains(&byte)
}

fn is_escapable(byte: u8) -> bool
    ensures { result ≡ is_escapable byte }
{
    !matches!(byte, b'\t' | b'\n')
}

/// Whether the first byte is this one.
pub fn begins_with(bytes: &[u8], byte: u8) -> bool
    ensures { result ≡ begins (λ b. b == byte) bytes.now }
{
    match bytes.split_first() {
        Some((first, _)) => *first == byte,
        None => false,
    }
}

/// The bytes of the class at the front, and what is behind them.
pub fn split(bytes: &[u8], class: ByteClass) -> (&[u8], &[u8])
    ensures front { result.0.now ≡ taken (is_of class) bytes.now }
    ensures behind { result.1.now ≡ left (is_of class) bytes.now }
{
    bytes.split_at(front_len(bytes, class))
}

/// How many bytes of the class stand at the front.
pub fn front_len(bytes: &[u8], class: ByteClass) -> usize
    ensures { result ≡ prefix_len (is_of class) bytes.now }
{
    let mut len = 0;
    'front: while len < bytes.len() && class.has(bytes[len]) {
        len += 1;
    }
    len
}

/// How many bytes at the front are of the class, or a `%` and what it escapes.
pub fn pieces_len(bytes: &[u8], class: ByteClass) -> usize
    ensures { IsPiecesLen (is_of class) bytes.now result }
{
    let mut len = 0;
    'pieces: while len < bytes.len() {
        let (_, rest) = bytes.split_at(len);
        let piece = piece_len(rest, class);
        if piece == 0 {
            break;
        }
        len += piece;
    }
    len
}

/// The length of a byte of the class, or of `%` and the byte behind it; 0 where neither is at the front.
fn piece_len(bytes: &[u8], class: ByteClass) -> usize
    ensures { result ≡ piece_len (is_of class) bytes.now }
{
    match bytes {
        [first, ..] if class.has(*first) => 1,
        [b'%', second, ..] if is_escapable(*second) => 2,
        _ => 0,
    }
}

/// Whether there is a `%`.
pub fn has_escape(bytes: &[u8]) -> bool
    ensures { result ≡ list_any (λ b. b == 37) bytes.now }
{
    bytes.iter().any(|byte| *byte == b'%')
}

/// How many newlines there are.
pub fn newlines(bytes: &[u8]) -> usize
    ensures { result ≡ newlines bytes.now }
{
    bytes.iter().filter(|byte| **byte == b'\n').count()
}
