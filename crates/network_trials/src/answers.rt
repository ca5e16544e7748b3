ghost use Rattle.lookup.specs.Answering.{IsOverAlphabet};

use crate::symbols::{Symbols, word_of};
use fsm_base::Text;
use lookup::{Answer, Net, down, up};
use std::alloc::{AllocError, Global};

/// The answer to a word of these texts, `up` or `down`, or None where the way is another one.
pub fn answer_of(
    alloc: Global,
    net: &Net,
    symbols: &Symbols,
    way: &str,
    texts: &str,
) -> Result<Option<Answer>, AllocError>
    requires { IsOverAlphabet symbols.now.alphabet net.now }
{
    let word = word_of(alloc, symbols, texts)?;
    match way {
        "up" => Ok(Some(up(alloc, net, &symbols.alphabet, &word)?)),
        "down" => Ok(Some(down(alloc, net, &symbols.alphabet, &word)?)),
        _ => Ok(None),
    }
}

/// The texts of an answer, the empty one as 0, or that they are more or without end.
pub fn told(alloc: Global, answer: &Answer) -> Result<String, AllocError> {
    match answer {
        Answer::Strings(texts) => listed(alloc, texts),
        Answer::More => String::from_str(alloc, "more"),
        Answer::Loop { .. } => String::from_str(alloc, "loop"),
    }
}

/// The texts, the empty one as 0, or that there is none.
fn listed(alloc: Global, texts: &[Text]) -> Result<String, AllocError> {
    if texts.is_empty() {
        return String::from_str(alloc, "no text");
    }
    let mut said = String::new(alloc);
    for text in texts {
        if !said.is_empty() {
            said.push_str(" ")?;
        }
        said.push_str(or_zero(text.as_str()))?;
    }
    Ok(said)
}

/// The text, the empty one as 0.
pub fn or_zero(text: &str) -> &str {
    if text.is_empty() { "0" } else { text }
}

/// Adds a line.
pub fn add_line(said: &mut String, line: &str) -> Result<(), AllocError> {
    if !said.is_empty() {
        said.push_str("\n")?;
    }
    said.push_str("    ")?;
    said.push_str(line)
}
