use flag_diacritics::Setting;
use std::alloc::Global;
use std::marker::Model;

/// What the features of the two runs are behind the conditions of a word, by numbers.
#[derive(Debug, Drop)]
pub struct Values {
    /// Those of the upper run.
    pub(crate) upper: Vec<Setting>,
    /// Those of the lower run.
    pub(crate) lower: Vec<Setting>,
}

impl Model for Values {
    ghost use Rattle.flag_diacritics.specs.Numbers.{Features};

    ghost Value = { Features };

    ghost view = { λ values. record { upper = values.upper.items; lower = values.lower.items } };
}

impl Values {
    /// Those of no features.
    pub fn none(alloc: Global) -> Values {
        Values {
            upper: Vec::new(alloc),
            lower: Vec::new(alloc),
        }
    }
}

/// What a symbol makes of the values of a word.
#[derive(Debug, Drop)]
pub enum Behind {
    /// It is a condition that doesn't hold.
    Refused,
    /// They stay.
    Stay,
    /// They are these.
    To(Values),
}
