ghost use Rattle.std.specs.Prelude.{◌≡◌, ◌++◌, ◌∷◌, codes, decimal, IfOk};
ghost use Rattle.std.specs.String.{string_bytes};
ghost use Rattle.word_relations.specs.Answers.{strings};
ghost use Rattle.reply_meaning.specs.Replies.{answer_bytes, headed};
ghost use Rattle.lookup_answers.specs.Answers.{found_of};

use fsm_base::Text;
use itoa::Buffer;
use lookup_answers::Answer;
use std::alloc::{AllocError, Global};

/// Room for the two numbers of a reply's first line, its spaces and its newline.
const HEAD_ROOM: usize = 64;

/// The room that a reply with these texts needs, or more.
fn room_for(word: &str, texts: &[Text]) -> usize {
    let mut room = word.len().saturating_add(HEAD_ROOM);
    for text in texts {
        room = room.saturating_add(text.as_str().len()).saturating_add(1);
    }
    room
}

/// The first line of a reply that lists so many texts, in a string with room for so many bytes.
fn first_line(
    alloc: Global,
    room: usize,
    number: u64,
    count: usize,
    word: &str,
) -> Result<String, AllocError>
    ensures { IfOk result (λ reply. string_bytes reply ≡ headed number (decimal count ++ 32 ∷ word.now)) }
{
    let mut reply = String::with_capacity(alloc, room)?;
    let mut digits = Buffer::new();
    reply.push_str(digits.format(number))?;
    reply.push(' ')?;
    reply.push_str(digits.format(count))?;
    reply.push(' ')?;
    reply.push_str(word)?;
    reply.push('\n')?;
    Ok(reply)
}

/// How many texts there are, and each on a line.
fn listed(alloc: Global, number: u64, word: &str, texts: &[Text]) -> Result<String, AllocError>
    ensures { IfOk result (λ reply. string_bytes reply ≡ answer_bytes number word.now (strings texts.now)) }
{
    let mut reply = first_line(alloc, room_for(word, texts), number, texts.len(), word)?;
    'texts: for text in texts {
        reply.push_str(text.as_str())?;
        reply.push('\n')?;
    }
    Ok(reply)
}

/// The reply to `word` at the version `number`, by what was found:
///
/// - `V n WORD` and the n texts, each on a line;
/// - `V more WORD` where there are more texts than are listed;
/// - `V loop WORD` and three lines, what stands before the round, the round, and what stands after it.
pub fn answer(
    alloc: Global,
    number: u64,
    word: &str,
    answer: &Answer,
) -> Result<Vec<u8>, AllocError>
    ensures { IfOk result (λ bytes. bytes.items ≡ answer_bytes number word.now (found_of answer.now)) }
{
    let reply = match answer {
        Answer::Strings(texts) => listed(alloc, number, word, texts)?,
        Answer::More => format!(in alloc; "{number} more {word}\n")?,
        Answer::Loop {
            before,
            round,
            after,
        } => {
            let (before, round, after) = (before.as_str(), round.as_str(), after.as_str());
            format!(in alloc; "{number} loop {word}\n{before}\n{round}\n{after}\n")?
        }
    };
    Ok(reply.into_bytes())
}

/// The reply to `word` at the version `number`, where no symbol begins at the character `at`, counted from 1:
/// `V symbol AT WORD`.
pub fn symbol(alloc: Global, number: u64, at: u32, word: &str) -> Result<Vec<u8>, AllocError>
    ensures { IfOk result (λ bytes. bytes.items ≡ headed number (codes "symbol " ++ decimal at ++ 32 ∷ word.now)) }
{
    let reply = format!(in alloc; "{number} symbol {at} {word}\n")?;
    Ok(reply.into_bytes())
}

/// The reply at the version `number`, which has no such name: `V net NAME`.
pub fn no_net(alloc: Global, number: u64, name: &str) -> Result<Vec<u8>, AllocError>
    ensures { IfOk result (λ bytes. bytes.items ≡ headed number (codes "net " ++ name.now)) }
{
    let reply = format!(in alloc; "{number} net {name}\n")?;
    Ok(reply.into_bytes())
}
