ghost use Rattle.std.specs.Prelude.{◌≡◌, take, drop};
ghost use Rattle.regex_tokens.specs.Bytes.{begins, is_blank};
ghost use Rattle.pair_lines.specs.Reading.{behind_blanks, word_len};

/// Whether a byte is a space, a tab or a newline.
fn is_blank(byte: u8) -> bool
    ensures { result ≡ is_blank byte }
{
    matches!(byte, b' ' | b'\t' | b'\n')
}

/// Whether a text begins with a blank.
fn begins_blank(bytes: &[u8]) -> bool
    ensures { result ≡ begins is_blank bytes.now }
{
    match bytes.split_first() {
        Some((first, _)) => is_blank(*first),
        None => false,
    }
}

/// What is behind the blanks in front of a text.
pub fn behind_blanks(text: &str) -> &str
    ensures { result.now ≡ behind_blanks text.now }
{
    let mut rest = text;
    'blanks: while begins_blank(rest.as_bytes()) {
        rest = rest.split_at(1).1;
    }
    rest
}

/// How many bytes stand before the first blank that no `%` escapes, or all.
fn word_len(bytes: &[u8]) -> usize
    ensures { result ≡ word_len bytes.now }
{
    let mut len = 0;
    let mut escaped = false;
    'bytes: while len < bytes.len() {
        let byte = bytes[len];
        if is_blank(byte) && !escaped {
            return len;
        }
        escaped = byte == b'%' && !escaped;
        len += 1;
    }
    len
}

/// The text up to the first blank that no `%` escapes, and what is behind.
pub fn split_word(text: &str) -> (&str, &str)
    ensures word { result.0.now ≡ take (word_len text.now) text.now }
    ensures behind { result.1.now ≡ drop (word_len text.now) text.now }
{
    text.split_at(word_len(text.as_bytes()))
}
