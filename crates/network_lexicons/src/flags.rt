ghost use Rattle.std.specs.Prelude.{◌≡◌, [], IfOk, IsTrue, MatchOption, OnOk, Some, slice_get};
ghost use Rattle.flag_diacritics.specs.Numbers.{Keeps};
ghost use Rattle.flag_diacritics.specs.Tapes.{flag_of};

use indexmap::IndexMap;
use regex_ast::{FlagKind, FlagOp};
use std::alloc::{AllocError, Global};
use std::marker::Model;

/// The flags of all entries, numbered from 0 in the order in which they came. A flag that comes again is found by a hash, so
/// that equal flags are one letter. Contracts see the list of the flags.
#[derive(Drop)]
pub struct Flags {
    /// The flags. The place of a flag is its number.
    list: Vec<FlagOp>,
    /// The number of each flag, by its text.
    numbers: IndexMap<String, u32>,
}

impl Model for Flags {
    ghost use Rattle.std.specs.Prelude.{List};
    ghost use Rattle.regex_ast.specs.declared.lexc.FlagOp.{FlagOp};

    ghost Value = { List FlagOp };

    ghost view = { λ flags. flags.list.items };
}

impl Flags {
    /// No flags.
    pub fn new(alloc: Global) -> Flags
        ensures { result ≡ [] }
    {
        Flags {
            list: Vec::new(alloc),
            numbers: IndexMap::new(alloc),
        }
    }

    /// The flags, each at the place that is its number.
    pub fn as_slice(&self) -> &[FlagOp]
        ensures { result.now ≡ self.now }
    {
        self.list.as_slice()
    }

    /// The number of a flag, of which a copy is put behind the others where it isn't there. Of more than 2^32 flags there is no
    /// memory for the numbers.
    pub fn number_of(&mut self, flag: &FlagOp) -> Result<u32, AllocError>
        ensures kept { OnOk result (Keeps self.old self.new) }
        ensures number { IfOk result (λ n. (f : FlagOp) × (slice_get self.new n ≡ Some f) × (flag_of f ≡ flag_of flag.now)) }
    {
        let text = text_of(*self.numbers.allocator(), flag)?;
        if let Some(number) = self.known(text.as_str(), flag) {
            return Ok(number);
        }
        let Ok(number) = u32::try_from(self.list.len()) else {
            return Err(AllocError);
        };
        self.list.push(flag.clone()?)?;
        self.numbers.insert(text, number)?;
        Ok(number)
    }

    /// The number of a flag with this text, if it is there.
    fn known(&self, text: &str, flag: &FlagOp) -> Option<u32>
        ensures { MatchOption result (Unit {0}) (λ n. (f : FlagOp) × (slice_get self.now n ≡ Some f) × (flag_of f ≡ flag_of flag.now)) }
    {
        let number = *self.numbers.get(text)?;
        let known = self.list.get(number as usize)?;
        if are_equal(known, flag) {
            Some(number)
        } else {
            None
        }
    }
}

/// Whether two flags do the same.
fn are_equal(one: &FlagOp, other: &FlagOp) -> bool
    ensures { IsTrue result → flag_of one.now ≡ flag_of other.now }
{
    one.kind == other.kind && one.feature == other.feature && one.value == other.value
}

/// A flag as a text: its kind, its feature and its value, if it has one.
fn text_of(alloc: Global, flag: &FlagOp) -> Result<String, AllocError> {
    let mut text = String::from_str(alloc, kind_text(flag.kind))?;
    text.push_str(flag.feature.as_str())?;
    if let Some(value) = &flag.value {
        text.push_str(".")?;
        text.push_str(value.as_str())?;
    }
    Ok(text)
}

/// A kind as a text.
fn kind_text(kind: FlagKind) -> &'static str {
    match kind {
        FlagKind::P => "P.",
        FlagKind::N => "N.",
        FlagKind::C => "C.",
        FlagKind::R => "R.",
        FlagKind::D => "D.",
        FlagKind::U => "U.",
    }
}
