ghost use Rattle.std.specs.Prelude.{◌≡◌, ◌++◌, ◌∷◌, codes, decimal, IfOk};
ghost use Rattle.reply_meaning.specs.Replies.{headed};
ghost use Rattle.named_networks.specs.Lines.{all_told, differ_head};

use crate::told::Question;
use std::alloc::{AllocError, Global};

/// The line of a project with the symbol `@0@`, whose networks have no AT&T text: `V zero-symbol`.
pub(crate) fn zero_symbol(alloc: Global, version: u64) -> Result<Vec<u8>, AllocError>
    ensures { IfOk result (λ bytes. bytes.items ≡ headed version (codes "zero-symbol")) }
{
    let line = format!(in alloc; "{version} zero-symbol\n")?;
    Ok(line.into_bytes())
}

/// The line of a name that is a relation where a language is asked for: `V relation NAME`.
pub(crate) fn relation(alloc: Global, version: u64, name: &str) -> Result<Vec<u8>, AllocError>
    ensures { IfOk result (λ bytes. bytes.items ≡ headed version (codes "relation " ++ name.now)) }
{
    let line = format!(in alloc; "{version} relation {name}\n")?;
    Ok(line.into_bytes())
}

/// The line of two languages of which no word is told: `V same` or `V within`.
pub(crate) fn no_word(
    alloc: Global,
    version: u64,
    question: Question,
) -> Result<Vec<u8>, AllocError>
    ensures { IfOk result (λ bytes. bytes.items ≡ headed version (all_told question)) }
{
    let line = match question {
        Question::Equal => format!(in alloc; "{version} same\n")?,
        Question::Within => format!(in alloc; "{version} within\n")?,
    };
    Ok(line.into_bytes())
}

/// What stands before a word that is in the first of two languages alone, or in the second alone.
pub(crate) fn differ_head(first: bool) -> &'static str
    ensures { result.now ≡ differ_head first }
{
    if first { "differ 1" } else { "differ 2" }
}

/// The line that tells a word, by the number of its symbols and its text: `V HEAD K WORD`.
pub(crate) fn with_word(
    alloc: Global,
    version: u64,
    head: &str,
    count: usize,
    word: &str,
) -> Result<Vec<u8>, AllocError>
    ensures { IfOk result (λ bytes. bytes.items ≡ headed version (head.now ++ 32 ∷ (decimal count ++ 32 ∷ word.now))) }
{
    let line = format!(in alloc; "{version} {head} {count} {word}\n")?;
    Ok(line.into_bytes())
}
