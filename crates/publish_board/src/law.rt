//! The rule of the history, for logbook.
use crate::release::Release;
use logbook::{Gain, Plain, Play, Rule};

/// An entry of a history. Proofs alone have such entries.
pub enum Entry<V> {
    /// The value was published.
    Value(V),
    /// Nothing more is published.
    Closed,
}

/// The rule: the history is as `IsLegal` says, and its length stands in the shared word.
pub struct Law;

impl<V: Release> Rule<Entry<V>, u64> for Law {
    ghost use Rattle.std.specs.Prelude.{[]};
    ghost use base.Fml.{ftrue};
    ghost use Rattle.publish_board.specs.HistoryRule.{IsKept};

    ghost holds = { λ cells log. IsKept V.number_of cells log };

    ghost first = { [] };

    ghost hinted = { λ n log. Unit {0} };

    ghost shows = { λ log. [] };

    ghost keeps = { λ names log. ftrue };

    ghost moves = { λ ask before after answer. Unit {0} };
}

/// Callers trade nothing.
pub struct Nothing;

impl<V: Release> Gain<Entry<V>, u64> for Nothing {
    ghost use base.Fml.{ftrue};

    ghost after = { λ names about answer. ftrue };
}

/// The step that adds an entry.
pub struct Add;

impl<V: Release> Play<Entry<V>, u64> for Add {
    ghost use Rattle.publish_board.specs.HistoryRule.{Adds};

    ghost then = { Adds };
}

/// To add a value.
impl<V: Release> Plain<V, Entry<V>, u64> for Add {
    ghost use Rattle.std.specs.Prelude.{None};
    ghost use Rattle.publish_board.specs.declared.law.Entry.TheVariants.{Value};

    ghost ask = { λ x. Value x };

    ghost state = { λ x. None };
}

/// To close.
impl<V: Release> Plain<(), Entry<V>, u64> for Add {
    ghost use Rattle.std.specs.Prelude.{None};
    ghost use Rattle.publish_board.specs.declared.law.Entry.TheVariants.{Closed};

    ghost ask = { λ x. Closed };

    ghost state = { λ x. None };
}
