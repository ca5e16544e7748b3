ghost use Rattle.std.specs.Prelude.{◌≡◌, option_copied};
ghost use Rattle.lookup_walk.specs.Ways.{finals_in, rules_in};

use flag_runs::Rules;
use fsa::Fsa;
use fsm_base::Pair;
use fst_flagged::Flagged;
use lookup_answers::Direction;

/// A network as it was made.
#[derive(Debug, Drop)]
pub(crate) enum Kept {
    /// A plain transducer.
    Plain(Fsa<Pair>),
    /// One that keeps flags.
    Flagged(Flags),
}

/// A transducer on whose paths conditions stand, and what look-ups obey.
#[derive(Debug, Drop)]
pub(crate) struct Flags {
    /// The transducer.
    pub(crate) net: Flagged,
    /// Whether each state is final where the conditions stand on the lower side.
    pub(crate) below: Vec<bool>,
    /// What the conditions do.
    pub(crate) rules: Rules,
}

impl Kept {
    /// Whether each state is final, as a look-up in one direction goes over them.
    pub(crate) fn finals(&self, direction: Direction) -> &[bool]
        ensures { result.now ≡ finals_in direction self.now }
    {
        match self {
            Kept::Plain(net) => net.finals(),
            Kept::Flagged(kept) => match direction {
                Direction::Up => kept.net.net().finals(),
                Direction::Down => kept.below.as_slice(),
            },
        }
    }

    /// What the conditions do, if the network keeps flags.
    pub(crate) fn rules(&self) -> Option<&Rules>
        ensures { option_copied result ≡ rules_in self.now }
    {
        match self {
            Kept::Plain(_) => None,
            Kept::Flagged(kept) => Some(&kept.rules),
        }
    }
}
