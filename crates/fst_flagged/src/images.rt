ghost use Rattle.std.specs.Prelude.{◌≡◌};
ghost use Rattle.fst_algebra.specs.Substituted.{letter_or_epsilon};
ghost use Rattle.fst_algebra.specs.declared.substitution.Image.TheVariants.{Letter};
ghost use Rattle.fst_flagged.specs.Images.{as_pair, as_tape, condition_pair, flag_at_place, is_condition, is_plain, moved_below, on_side, renumbered, turned};

use crate::condition::{Condition, FIRST, Run};
use flag_diacritics::Tape;
use fsm_base::{Pair, Sym};
use fst_algebra::{Image, Substitution};

/// Whether the symbol on a side is a condition.
pub fn is_condition(symbol: Option<Sym>) -> bool
    ensures { result ≡ is_condition symbol }
{
    match symbol {
        Some(symbol) => symbol.0 >= FIRST,
        None => false,
    }
}

/// Whether no side of the pair, if there is one, is a condition.
pub fn is_plain(pair: Option<Pair>) -> bool
    ensures { result ≡ is_plain pair }
{
    match pair {
        Some(pair) => !is_condition(pair.up) && !is_condition(pair.low),
        None => true,
    }
}

/// Moves a condition to the lower side.
pub struct MovedBelow;

impl Substitution<Pair, Pair> for MovedBelow {
    ghost image = { λ _ pair. Letter (moved_below pair) };

    fn image_of(&self, pair: Pair) -> Image<Pair> {
        if is_condition(pair.up) {
            Image::Letter(Pair {
                up: None,
                low: pair.up,
            })
        } else {
            Image::Letter(pair)
        }
    }
}

/// Exchanges the sides, but for a condition.
pub struct Turned;

impl Substitution<Pair, Pair> for Turned {
    ghost image = { λ _ pair. Letter (turned pair) };

    fn image_of(&self, pair: Pair) -> Image<Pair> {
        if is_condition(pair.up) {
            Image::Letter(pair)
        } else {
            Image::Letter(Pair {
                up: pair.low,
                low: pair.up,
            })
        }
    }
}

/// Raises the numbers of conditions, which go no further than 32 bits.
#[derive(Clone, Copy)]
pub struct Renumbered {
    /// By how much.
    pub by: u32,
}

impl Substitution<Pair, Pair> for Renumbered {
    ghost image = { λ self pair. Letter (renumbered self.by pair) };

    fn image_of(&self, pair: Pair) -> Image<Pair> {
        match pair.up {
            Some(symbol) if symbol.0 >= FIRST => Image::Letter(Pair {
                up: Some(Sym(symbol.0.saturating_add(self.by))),
                low: pair.low,
            }),
            _ => Image::Letter(pair),
        }
    }
}

/// Makes conditions of the flags of tapes.
#[derive(Clone, Copy)]
pub struct AsPairs {
    /// How many flags there are.
    pub count: u32,
    /// The number of the condition of the first flag on the lower side. Those of the upper side begin with [`FIRST`].
    pub lower: u32,
}

impl Substitution<Tape, Pair> for AsPairs {
    ghost image = { λ self tape. letter_or_epsilon (as_pair self.count self.lower tape) };

    fn image_of(&self, tape: Tape) -> Image<Pair> {
        match tape {
            Tape::Pair(pair) => Image::Letter(pair),
            Tape::UpFlag(flag) => condition_pair(self.count, FIRST, flag),
            Tape::LowFlag(flag) => condition_pair(self.count, self.lower, flag),
        }
    }
}

/// The condition of a flag, by the number of the first. A flag past the last is none.
fn condition_pair(count: u32, from: u32, flag: u32) -> Image<Pair>
    ensures { result ≡ letter_or_epsilon (condition_pair count from flag) }
{
    if flag < count {
        Image::Letter(Pair {
            up: Some(Sym(from.saturating_add(flag))),
            low: None,
        })
    } else {
        Image::Epsilon
    }
}

/// Makes flags of tapes of the conditions.
#[derive(Clone, Copy)]
pub struct AsTapes<'a> {
    /// The conditions.
    pub conditions: &'a [Condition],
}

impl<'a> Substitution<Pair, Tape> for AsTapes<'a> {
    ghost image = { λ self pair. letter_or_epsilon (as_tape self.conditions.now pair) };

    fn image_of(&self, pair: Pair) -> Image<Tape> {
        match pair.up {
            Some(symbol) if symbol.0 >= FIRST => flag_at(self.conditions, symbol.0 - FIRST),
            _ => Image::Letter(Tape::Pair(pair)),
        }
    }
}

/// The flag of a condition, by the condition's place. Behind the last there is none.
fn flag_at(conditions: &[Condition], place: u32) -> Image<Tape>
    ensures { result ≡ letter_or_epsilon (flag_at_place conditions.now place) }
{
    match conditions.get(place as usize) {
        Some(condition) => Image::Letter(on_side(condition.run, place)),
        None => Image::Epsilon,
    }
}

/// A flag by its number, on the side of its run.
fn on_side(run: Run, flag: u32) -> Tape
    ensures { result ≡ on_side run flag }
{
    match run {
        Run::Upper => Tape::UpFlag(flag),
        Run::Lower => Tape::LowFlag(flag),
    }
}
