ghost use Rattle.std.specs.Prelude.{◌≡◌};
ghost use Rattle.regex_tokens.specs.Cuts.{newlines};
ghost use Rattle.lexc_tokens.specs.Steps.{IsGapLen, is_in_gap, is_in_comment};

/// Whether a character stands in a gap, where the text before it ends inside a comment or not.
fn is_in_gap(inside: bool, character: char) -> bool
    ensures { result ≡ is_in_gap inside character }
{
    inside || matches!(character, ' ' | '\t' | '\n' | '!')
}

/// Whether the text behind a character of a gap is inside a comment, which goes from `!` to the end of its line.
fn is_in_comment(inside: bool, character: char) -> bool
    ensures { result ≡ is_in_comment inside character }
{
    if inside {
        character != '\n'
    } else {
        character == '!'
    }
}

/// How many characters the blanks and comments in front of a text have.
pub fn gap_len(text: &[char]) -> usize
    ensures { IsGapLen text.now result }
{
    let mut inside = false;
    'gap: for (index, character) in text.iter().enumerate() {
        if !is_in_gap(inside, *character) {
            return index;
        }
        inside = is_in_comment(inside, *character);
    }
    text.len()
}

/// How many newlines there are.
pub fn newlines(text: &[char]) -> usize
    ensures { result ≡ newlines text.now }
{
    text.iter().filter(|character| **character == '\n').count()
}
