ghost use Rattle.std.specs.Prelude.{◌≡◌, ◌<◌, ◌≤◌, ◌^◌, ◌++◌, ◌∷◌, [], length, map, take, chars, if◌then◌else◌, Ok, Err, Some, IfOk, MatchOption};
ghost use Rattle.fsm_base.specs.Longest.{IsLongest, BeginsWithNone};
ghost use Rattle.regex_ast.specs.declared.fault.Why.TheVariants as why;
ghost use Rattle.interlinear.specs.Glosses.{AreRead, IsTableRead, entry_of, fields_of, gloss_of, glossed, keys_in, lines_of, says_nothing, with_entry, with_line};
ghost use Rattle.interlinear.specs.Tables.{found, told};

use crate::words::pieces_of;
use fsm_base::Text;
use indexmap::IndexMap;
use regex_ast::{ReadError, Why};
use std::alloc::{AllocError, Global};
use std::marker::Model;

/// What stands between the lines of a file.
const BETWEEN_LINES: [char; 1] = ['\n'];

/// What stands between the key of a line and its gloss.
const BETWEEN_FIELDS: [char; 1] = ['\t'];

/// The glosses of a file, each under its key.
///
/// Contracts see the list of its entries, in the order of the file: a key by its characters, and a gloss by its bytes.
#[derive(Drop)]
pub struct GlossTable {
    /// The glosses, under the characters of their keys.
    glosses: IndexMap<Vec<char>, Text>,
    /// No key has more characters.
    longest: usize,
}

impl Model for GlossTable {
    ghost use Rattle.std.specs.Prelude.{List, map};
    ghost use Rattle.interlinear.specs.Glosses.{Entry};
    ghost use Rattle.interlinear.specs.Tables.{kept, AreWithin};

    ghost Value = { List Entry };

    ghost view = { λ table. map kept table.glosses.entries };

    ghost invariant = { λ table. AreWithin table.longest (map kept table.glosses.entries) };
}

/// Whether a line is empty, or begins with `!`.
fn says_nothing(line: &str) -> bool
    ensures { result ≡ says_nothing line.now }
{
    match line.as_bytes() {
        [] => true,
        [first, ..] => *first == b'!',
    }
}

/// The characters of a text.
fn characters_of(alloc: Global, text: &str) -> Result<Vec<char>, AllocError>
    ensures { IfOk result (λ characters. characters.items ≡ chars text.now) }
{
    text.chars().collect(alloc)
}

/// The entry of a line, or `None` where it has none: it isn't a key, a tab and a gloss.
fn entry_of(alloc: Global, line: &str) -> Result<Option<(Vec<char>, Text)>, AllocError>
    ensures { IfOk result (λ entry. found entry ≡ entry_of (fields_of line.now)) }
{
    let fields = pieces_of(alloc, &BETWEEN_FIELDS, line)?;
    let [key, gloss] = fields.as_slice() else {
        return Ok(None);
    };
    let key = characters_of(alloc, key.as_str())?;
    if key.is_empty() {
        return Ok(None);
    }
    Ok(Some((key, Text::of(alloc, gloss.as_str())?)))
}

impl GlossTable {
    /// The table without entries.
    pub fn empty(alloc: Global) -> GlossTable
        ensures { result ≡ [] }
    {
        GlossTable {
            glosses: IndexMap::new(alloc),
            longest: 0,
        }
    }

    /// Adds an entry, unless its key is there. Answers whether it did.
    fn add(&mut self, key: Vec<char>, gloss: Text) -> Result<bool, AllocError>
        requires { 0 < length key.items }
        ensures { IfOk result (λ added. with_entry self.old (Some (key.items, gloss)) ≡ (if added then Ok self.new else Err why.Duplicate)) }
    {
        if self.glosses.get(key.as_slice()).is_some() {
            return Ok(false);
        }
        self.longest = self.longest.max(key.len());
        self.glosses.insert(key, gloss)?;
        Ok(true)
    }

    /// Adds the entry of a line, if it says something, or answers what is wrong with it.
    fn add_line(&mut self, alloc: Global, line: &str) -> Result<Option<Why>, AllocError>
        ensures { IfOk result (λ reason. with_line self.old line.now ≡ told self.new reason) }
    {
        if says_nothing(line) {
            return Ok(None);
        }
        let Some((key, gloss)) = entry_of(alloc, line)? else {
            return Ok(Some(Why::Statement));
        };
        if self.add(key, gloss)? {
            return Ok(None);
        }
        Ok(Some(Why::Duplicate))
    }

    /// The table of lines.
    fn of_lines(alloc: Global, lines: &[Text]) -> Result<GlossTable, ReadError>
        requires { length lines.now < 2 ^ 32 }
        ensures { AreRead lines.now result }
    {
        let mut table = GlossTable::empty(alloc);
        let mut number = 0;
        'lines: for line in lines {
            number += 1;
            if let Some(why) = table.add_line(alloc, line.as_str())? {
                return Err(ReadError::Fault { line: number, why });
            }
        }
        Ok(table)
    }

    /// The table of a file of glosses. Each of its lines is a key, a tab and a gloss, but an empty line and a line that
    /// begins with `!` say nothing. A key isn't empty, a gloss may be.
    ///
    /// # Errors
    ///
    /// The first fault, with its line: `Statement` where a line is in no form, and `Duplicate` where its key was there
    /// before. `Memory` where there was no memory.
    pub fn read(alloc: Global, text: &str) -> Result<GlossTable, ReadError>
        requires { length (lines_of text.now) < 2 ^ 32 }
        ensures { IsTableRead text.now result }
    {
        let lines = pieces_of(alloc, &BETWEEN_LINES, text)?;
        GlossTable::of_lines(alloc, &lines)
    }

    /// The gloss of the longest key that these characters begin with, and how many characters it has.
    fn longest_front(&self, text: &[char]) -> Option<(usize, &str)>
        ensures { MatchOption result (BeginsWithNone (keys_in self.now) text.now) (λ front. (0 < front.0) × (front.0 ≤ length text.now) × IsLongest (keys_in self.now) text.now (take front.0 text.now) × (gloss_of self.now (take front.0 text.now) ≡ Some front.1.now)) }
    {
        let mut length = self.longest.min(text.len());
        'lengths: while 0 < length {
            if let Some(gloss) = self.glosses.get(&text[..length]) {
                return Some((length, gloss.as_str()));
            }
            length -= 1;
        }
        None
    }

    /// The gloss of a text, from left to right: at each place the gloss of the longest key that begins there, and where
    /// none begins the character itself. It looks up at most as many fronts at a place as the longest key has characters.
    pub fn gloss(&self, alloc: Global, text: &str) -> Result<Text, AllocError>
        ensures { IfOk result (λ gloss. gloss ≡ glossed self.now text.now) }
    {
        let characters = characters_of(alloc, text)?;
        let mut gloss = String::new(alloc);
        let mut rest = characters.as_slice();
        'rest: while let Some((first, others)) = rest.split_first() {
            match self.longest_front(rest) {
                Some((length, part)) => {
                    gloss.push_str(part)?;
                    rest = rest.split_at(length).1;
                }
                None => {
                    gloss.push(*first)?;
                    rest = others;
                }
            }
        }
        Text::from_string(gloss)
    }
}
