//! The longest symbol that a text begins with, among entries that are sorted by text.
ghost use Rattle.std.specs.Prelude.{◌≡◌, ◌==◌, ◌<◌, length, MatchOption};
ghost use Rattle.std.specs.List.{take_while, zip};
ghost use Rattle.fsm_base.specs.Lone.{AreLone};
ghost use Rattle.fsm_base.specs.Longest.{IsLongest, BeginsWithNone};
ghost use Rattle.fsm_base.specs.Sorted.{IsByText, IsLastUpTo, IsNext, NoneUpTo, text_at, texts_in};

use crate::lone::lone_symbol;
use crate::{Sym, Text};

/// A symbol of an alphabet under its text.
#[derive(Debug, Drop, PartialEq, Eq, PartialOrd, Ord)]
pub(crate) struct Entry {
    pub(crate) text: Text,
    pub(crate) symbol: Sym,
}

/// The symbol that a text goes on with.
#[derive(Clone, Copy, Debug)]
pub(crate) struct Next {
    pub(crate) symbol: Sym,
    /// How many bytes its text has.
    pub(crate) len: usize,
}

/// The symbol with the longest text that these bytes begin with. Where the first byte is a lone symbol, that is the one.
pub(crate) fn next_symbol(entries: &[Entry], lone: &[Option<Sym>], bytes: &[u8]) -> Option<Next>
    requires sorted { IsByText entries.now }
    requires lone { AreLone entries.now lone.now }
    ensures { MatchOption result (BeginsWithNone (texts_in entries.now) bytes.now) (λ next. IsNext entries.now bytes.now next.symbol next.len) }
{
    if let Some(symbol) = lone_symbol(lone, bytes) {
        return Some(Next { symbol, len: 1 });
    }
    let entry = &entries[longest_place(entries, bytes)?];
    Some(Next {
        symbol: entry.symbol,
        len: entry.text.as_str().len(),
    })
}

/// The place of the longest text that these bytes begin with.
///
/// The search takes the last text up to the bytes in their order. A symbol that the bytes begin with
/// is a front of that text too, so where the text is no front itself, it goes on with the front that
/// the two share.
fn longest_place(entries: &[Entry], bytes: &[u8]) -> Option<usize>
    requires { IsByText entries.now }
    ensures { MatchOption result (BeginsWithNone (texts_in entries.now) bytes.now) (λ place. (place < length entries.now) × IsLongest (texts_in entries.now) bytes.now (text_at entries.now place)) }
{
    let mut front = bytes;
    'fronts: while let Some(place) = last_up_to(entries, front) {
        let text = entries[place].text.as_str().as_bytes();
        let shared = shared_len(text, front);
        if shared == text.len() {
            return Some(place);
        }
        front = &front[..shared];
    }
    None
}

/// The place of the last text up to these bytes.
fn last_up_to(entries: &[Entry], bytes: &[u8]) -> Option<usize>
    requires { IsByText entries.now }
    ensures { MatchOption result (NoneUpTo (texts_in entries.now) bytes.now) (λ place. (place < length entries.now) × IsLastUpTo (texts_in entries.now) bytes.now (text_at entries.now place)) }
{
    let count = entries.partition_point(|entry| entry.text.as_str().as_bytes().cmp(bytes).is_le());
    count.checked_sub(1)
}

/// How many bytes the two have in common from the front on.
fn shared_len(a: &[u8], b: &[u8]) -> usize
    ensures { result ≡ length (take_while (λ pair. pair.0 == pair.1) (zip a.now b.now)) }
{
    a.iter().zip(b).take_while(|(x, y)| x == y).count()
}
