ghost use Rattle.std.specs.Prelude.{◌≡◌, ℕ, List, IfOk, option_copied};
ghost use Rattle.word_relations.specs.Relations.{AreSame};
ghost use Rattle.fsa.specs.Automaton.{Automaton};
ghost use Rattle.fsm_base.specs.declared.letters.Pair.{Pair};
ghost use Rattle.fsm_base.specs.declared.letters.Sym.{Sym};
ghost use Rattle.fst_algebra.specs.Relation.{IsRelated};
ghost use Rattle.lookup_walk.specs.Answering.{HasSymbolsOf, IsOverAlphabet};
ghost use Rattle.lookup_walk.specs.Nets.{NetRelates, flagged, plain};
ghost use Rattle.lookup_walk.specs.Ways.{IsWay};

use crate::kept::{Flags, Kept};
use crate::table::Table;
use flag_runs::Rules;
use fsa::Fsa;
use fsm_base::Pair;
use fst_flagged::Flagged;
use lookup_answers::Direction;
use std::alloc::{AllocError, Global};
use std::marker::Model;

/// A network, ready for look-ups. Contracts see the transducer that it was made of, plain or with conditions.
#[derive(Debug, Drop)]
pub struct Net {
    /// The transducer. A look-up reads the moves instead.
    kept: Kept,
    /// The moves of a look up.
    upward: Table,
    /// The moves of a look down.
    downward: Table,
}

impl Model for Net {
    ghost use Rattle.lookup_answers.specs.declared.direction.Direction.TheVariants.{Up, Down};
    ghost use Rattle.lookup_walk.specs.Nets.{NetView};
    ghost use Rattle.lookup_walk.specs.Ways.{IsWayIn, view_of};

    ghost Value = { NetView };

    ghost view = { λ net. view_of net.kept };

    ghost invariant = { λ net. IsWayIn Up net.kept net.upward × IsWayIn Down net.kept net.downward };
}

/// What a look-up in one direction goes over.
#[derive(Clone, Copy, Debug)]
pub struct Way<'a> {
    /// The moves.
    pub table: &'a Table,
    /// Whether each state is final.
    pub finals: &'a [bool],
    /// What the conditions do that the moves write, if the network keeps flags.
    pub rules: Option<&'a Rules>,
}

impl Net {
    /// Makes a transducer ready for look-ups: its moves are sorted once for each direction.
    pub fn of(alloc: Global, a: &Fsa<Pair>) -> Result<Net, AllocError>
        ensures { IfOk result (λ net. net ≡ plain a.now) }
    {
        Ok(Net {
            kept: Kept::Plain(copied(alloc, a)?),
            upward: Table::of(alloc, Direction::Up, a.edges(), a.states())?,
            downward: Table::of(alloc, Direction::Down, a.edges(), a.states())?,
        })
    }

    /// Makes a transducer with conditions ready for look-ups, which obey these. They are written in both directions: the moves of a look down
    /// are those of the transducer with its conditions on the lower side.
    pub fn flagged(alloc: Global, f: Flagged) -> Result<Net, AllocError>
        ensures { IfOk result (λ net. net ≡ flagged f) }
    {
        let below = f.with_conditions_below(alloc)?;
        let rules = Rules::of(alloc, f.conditions())?;
        let finals = Vec::from_slice(alloc, below.finals())?;
        let upward = Table::of(alloc, Direction::Up, f.net().edges(), f.states())?;
        let downward = Table::of(alloc, Direction::Down, below.edges(), below.states())?;
        Ok(Net {
            kept: Kept::Flagged(Flags {
                net: f,
                below: finals,
                rules,
            }),
            upward,
            downward,
        })
    }

    /// A transducer that relates the same: a plain one as it is, and one with conditions with these made states. It may have very many
    /// of them.
    pub fn to_fsa(&self, alloc: Global) -> Result<Fsa<Pair>, AllocError>
        ensures same { IfOk result (λ m. (a : Automaton Pair) → self.now ≡ plain a → m ≡ a) }
        ensures symbols { IfOk result (λ m. (alphabet : List (Sym × List ℕ)) → IsOverAlphabet alphabet self.now → HasSymbolsOf alphabet m) }
        ensures relation { IfOk result (λ m. AreSame (IsRelated m) (NetRelates self.now)) }
    {
        match &self.kept {
            Kept::Plain(net) => copied(alloc, net),
            Kept::Flagged(kept) => kept.net.resolve(alloc),
        }
    }

    /// What a look-up in one direction goes over.
    pub fn way(&self, direction: Direction) -> Way<'_>
        ensures { IsWay direction self.now result.table.now result.finals.now (option_copied result.rules) }
    {
        let table = match direction {
            Direction::Up => &self.upward,
            Direction::Down => &self.downward,
        };
        Way {
            table,
            finals: self.kept.finals(direction),
            rules: self.kept.rules(),
        }
    }
}

/// The same automaton once more.
fn copied(alloc: Global, a: &Fsa<Pair>) -> Result<Fsa<Pair>, AllocError>
    ensures { IfOk result (λ m. m ≡ a.now) }
{
    let finals = Vec::from_slice(alloc, a.finals())?;
    let edges = Vec::from_slice(alloc, a.edges())?;
    Ok(Fsa::of(finals, edges))
}
