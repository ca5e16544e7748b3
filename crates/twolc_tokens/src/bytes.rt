ghost use Rattle.std.specs.Prelude.{◌≡◌, ◌==◌};
ghost use Rattle.std.specs.List.{prefix_len};
ghost use Rattle.regex_tokens.specs.Bytes.{begins, is_blank, is_escapable};
ghost use Rattle.regex_tokens.specs.Cuts.{newlines};
ghost use Rattle.regex_tokens.specs.Reading.{IsPiecesLen, piece_len};
ghost use Rattle.twolc_tokens.specs.Spelling.{is_run_byte};
ghost use Rattle.twolc_tokens.specs.Reading.{is_of};

/// What the bytes of a part of the text may be.
#[derive(Clone, Copy, Debug, PartialEq, Eq)]
pub enum ByteClass {
    /// Any but a newline.
    Line,
    /// What stands between quotes.
    Quoted,
}

/// What a run has none of without an escape, among the bytes that can be seen.
const SPECIAL: &[u8] = b"[]()|/\\&-~$*+^:;_.<>=!\"%?";

impl ByteClass {
    /// Whether a byte is of the class.
    fn has(self, byte: u8) -> bool
        ensures { result ≡ is_of self byte }
    {
        match self {
            ByteClass::Line => byte != b'\n',
            ByteClass::Quoted => !matches!(byte, b'"' | b'\\' | b'\t' | b'\n'),
        }
    }
}

/// Whether a byte is a space, a tab or a newline.
pub fn is_blank(byte: u8) -> bool
    ensures { result ≡ is_blank byte }
{
    matches!(byte, b' ' | b'\t' | b'\n')
}

/// Whether a byte may stand in a run without an escape.
fn is_run_byte(byte: u8) -> bool
    ensures { result ≡ is_run_byte byte }
{
    !is_blank(byte) && !SPECIAL.contains(&byte)
}

fn is_escapable(byte: u8) -> bool
    ensures { result ≡ is_escapable byte }
{
    !matches!(byte, b'\t' | b'\n')
}

/// Whether the first byte is this one.
pub fn begins_with(bytes: &[u8], byte: u8) -> bool
    ensures { result ≡ begins (λ b. b == byte) bytes.now }
{
    match bytes.split_first() {
        Some((first, _)) => *first == byte,
        None => false,
    }
}

/// How many bytes of the class stand at the front.
pub fn front_len(bytes: &[u8], class: ByteClass) -> usize
    ensures { result ≡ prefix_len (is_of class) bytes.now }
{
    let mut len = 0;
    'front: while len < bytes.len() && class.has(bytes[len]) {
        len += 1;
    }
    len
}

/// How many bytes at the front are a run, each one that may stand there or a `%` and what it escapes.
pub fn run_len(bytes: &[u8]) -> usize
    ensures { IsPiecesLen is_run_byte bytes.now result }
{
    let mut len = 0;
    'pieces: while len < bytes.len() {
        let (_, rest) = bytes.split_at(len);
        let piece = piece_len(rest);
        if piece == 0 {
            break;
        }
        len += piece;
    }
    len
}

/// The length of a byte of a run, or of `%` and the byte behind it; 0 where neither is at the front.
fn piece_len(bytes: &[u8]) -> usize
    ensures { result ≡ piece_len is_run_byte bytes.now }
{
    match bytes {
        [first, ..] if is_run_byte(*first) => 1,
        [b'%', second, ..] if is_escapable(*second) => 2,
        _ => 0,
    }
}

/// How many newlines there are.
pub fn newlines(bytes: &[u8]) -> usize
    ensures { result ≡ newlines bytes.now }
{
    bytes.iter().filter(|byte| **byte == b'\n').count()
}
