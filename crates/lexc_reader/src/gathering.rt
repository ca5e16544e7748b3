ghost use Rattle.std.specs.Prelude.{◌+◌, ◌-◌, ◌<◌, ◌^◌, IfOk};
ghost use Rattle.regex_tokens.specs.Cuts.{newlines};
ghost use Rattle.lexc_reader.specs.Gathering.{AreEntryTokens};

use lexc_grammar::Ending;
use lexc_tokens::{Next, Token, scan};
use std::alloc::{AllocError, Global};

/// The tokens of an entry and how they end.
#[derive(Debug, Drop)]
pub struct EntryTokens {
    /// The tokens before the `;`.
    pub tokens: Vec<Token>,
    /// How they end.
    pub ending: Ending,
    /// How many characters stand behind the first token, to the end of the entry.
    pub len: usize,
    /// The line in which the text behind the entry begins.
    pub behind: u32,
}

/// The tokens of an entry with this first one, behind which this text stands that begins in this line.
pub fn entry_tokens(
    alloc: Global,
    first: Token,
    text: &[char],
    line: u32,
) -> Result<EntryTokens, AllocError>
    requires { line + newlines text.now < 2 ^ 32 - 1 }
    ensures { IfOk result (AreEntryTokens line first text.now) }
{
    let mut tokens = Vec::new(alloc);
    tokens.push(first)?;
    let mut len = 0;
    let mut behind = line;
    'tokens: loop {
        match scan(alloc, text.split_at(len).1, behind, false)? {
            Next::End => {
                return Ok(EntryTokens {
                    tokens,
                    ending: Ending::Unended,
                    len,
                    behind,
                });
            }
            Next::NoToken { line: at } => {
                return Ok(EntryTokens {
                    tokens,
                    ending: Ending::Broken { line: at },
                    len,
                    behind,
                });
            }
            Next::Found(found) => {
                len += found.len;
                behind = found.behind;
                if let Token::Semicolon = found.token {
                    return Ok(EntryTokens {
                        tokens,
                        ending: Ending::Ended,
                        len,
                        behind,
                    });
                }
                tokens.push(found.token)?;
            }
        }
    }
}
