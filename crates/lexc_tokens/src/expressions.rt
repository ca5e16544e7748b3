ghost use Rattle.std.specs.Prelude.{◌≡◌, ◌≤◌, length};
ghost use Rattle.lexc_tokens.specs.Tokens.{inner_len, behind, is_end};
ghost use Rattle.lexc_tokens.specs.declared.expressions.Inside.TheVariants as inside;

/// What the text of an expression is inside of.
#[derive(Clone, Copy, Debug, PartialEq, Eq)]
pub enum Inside {
    /// Nothing.
    Nothing,
    /// An escape: it is behind a `%`.
    Escape,
    /// Quotes, where `%` stands for itself.
    Quotes,
    /// Braces.
    Braces,
    /// An escape between braces.
    BracedEscape,
    /// A comment.
    Comment,
}

impl Inside {
    /// What the text behind a character is inside of.
    pub fn behind(self, character: char) -> Inside
        ensures { result ≡ behind self character }
    {
        match self {
            Inside::Nothing => match character {
                '%' => Inside::Escape,
                '"' => Inside::Quotes,
                '{' => Inside::Braces,
                '!' => Inside::Comment,
                _ => Inside::Nothing,
            },
            Inside::Escape => Inside::Nothing,
            Inside::Quotes => match character {
                '"' => Inside::Nothing,
                _ => Inside::Quotes,
            },
            Inside::Braces => match character {
                '%' => Inside::BracedEscape,
                '}' => Inside::Nothing,
                _ => Inside::Braces,
            },
            Inside::BracedEscape => Inside::Braces,
            Inside::Comment => match character {
                '\n' => Inside::Nothing,
                _ => Inside::Comment,
            },
        }
    }

    /// Whether a character ends the expression: a `>` that isn't escaped, in quotes or in a comment.
    pub fn is_end(self, character: char) -> bool
        ensures { result ≡ is_end self character }
    {
        match self {
            Inside::Nothing | Inside::Braces => character == '>',
            _ => false,
        }
    }
}

/// How many characters stand before the `>` that ends an expression, or all where none does.
pub fn inner_len(text: &[char]) -> usize
    ensures count { result ≡ inner_len inside.Nothing text.now }
    ensures within { result ≤ length text.now }
{
    let mut inside = Inside::Nothing;
    'characters: for (index, character) in text.iter().enumerate() {
        if inside.is_end(*character) {
            return index;
        }
        inside = inside.behind(*character);
    }
    text.len()
}
