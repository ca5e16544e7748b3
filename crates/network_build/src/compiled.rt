ghost use Rattle.std.specs.Prelude.{◌≡◌, ℕ, List, IfOk};
ghost use Rattle.fsm_base.specs.Alphabet.{symbols_of};
ghost use Rattle.fsm_base.specs.declared.letters.Sym.{Sym};
ghost use Rattle.fst_algebra.specs.Relation.{IsRelated};
ghost use Rattle.lookup.specs.Answering.{IsOverAlphabet};
ghost use Rattle.lookup.specs.Nets.{NetRelates};
ghost use Rattle.network_algebra.specs.Networks.{IsNetwork, PairsOf, UsesSymbols};
ghost use Rattle.word_relations.specs.Relations.{AreSame};

use fsa::Fsa;
use fsm_base::Pair;
use lookup::Net;
use network_algebra::{Network, a_little_more, straightened};
use std::alloc::{AllocError, Global};
use std::marker::Model;
use thiserror::Error;

/// Why a definition has no network.
#[derive(Debug, Drop, Error)]
pub enum BuildError {
    /// There was no memory.
    #[error(transparent)]
    Memory(AllocError),
    /// One of the definition's own centres of replacement has the empty word.
    #[error("a centre in the definition on line {line} has the empty word")]
    EmptyCentre {
        /// The line of the definition's statement.
        line: u32,
    },
}

impl From<AllocError> for BuildError {
    ghost use Rattle.std.specs.Prelude.{◌≡◌};
    ghost use Rattle.network_build.specs.declared.compiled.BuildError.TheVariants.{Memory};

    ghost from_gives = { λ refused error. error ≡ Memory refused };

    fn from(refused: AllocError) -> BuildError {
        BuildError::Memory(refused)
    }
}

/// A definition's network, ready for look-ups. Contracts see its transducer, plain or with conditions.
#[derive(Debug, Drop)]
pub struct Compiled {
    net: Net,
}

impl Model for Compiled {
    ghost use Rattle.network_build.specs.Networks.{CompiledView};

    ghost Value = { CompiledView };

    ghost view = { λ compiled. record { net = compiled.net } };
}

impl Compiled {
    /// The same network, ready for look-ups. Conditions stay; without them it is deterministic where that makes it little larger.
    pub fn of(alloc: Global, network: Network) -> Result<Compiled, AllocError>
        ensures relation { IfOk result (λ c. AreSame (NetRelates c.net) (PairsOf network)) }
        ensures alphabet { (alphabet : List (Sym × List ℕ)) → IsNetwork (symbols_of alphabet) network → IfOk result (λ c. IsOverAlphabet alphabet c.net) }
    {
        match network {
            Network::Words(words) => {
                let transducer = Network::Words(words).into_pairs(alloc)?;
                Compiled::plain(alloc, transducer)
            }
            Network::Pairs(transducer) => Compiled::plain(alloc, transducer),
            Network::Flagged(flagged) => {
                let net = Net::flagged(alloc, flagged)?;
                Ok(Compiled { net })
            }
        }
    }

    /// The network of a transducer without conditions.
    fn plain(alloc: Global, transducer: Fsa<Pair>) -> Result<Compiled, AllocError>
        ensures relation { IfOk result (λ c. AreSame (NetRelates c.net) (IsRelated transducer)) }
        ensures alphabet { (alphabet : List (Sym × List ℕ)) → UsesSymbols (symbols_of alphabet) transducer → IfOk result (λ c. IsOverAlphabet alphabet c.net) }
    {
        let edges = a_little_more(transducer.edges().len());
        let straight = straightened(alloc, transducer, edges)?;
        let net = Net::of(alloc, &straight)?;
        Ok(Compiled { net })
    }

    /// The network, ready for look-ups.
    pub fn net(&self) -> &Net
        ensures { result.now ≡ self.now.net }
    {
        &self.net
    }
}
