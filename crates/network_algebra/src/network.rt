ghost use Rattle.std.specs.Prelude.{◌≡◌, IfOk, List};
ghost use Rattle.fsm_base.specs.declared.letters.Sym.{Sym};
ghost use Rattle.word_relations.specs.Relations.{AreSame};
ghost use Rattle.fst_algebra.specs.Relation.{IsRelated};
ghost use Rattle.expr_kinds.specs.declared.form.Kind.{Kind};
ghost use Rattle.network_algebra.specs.Networks.{IsNetwork, UsesSymbols, PairsOf, kind_of_network};
ghost use Rattle.network_algebra.specs.declared.network.Network.TheVariants.{Words};

use crate::letters::inside;
use fsa::Fsa;
use fsm_base::{Bound, Pair, Sym};
use fst_algebra::identity;
use fst_flagged::Flagged;
use std::alloc::{AllocError, Global};

/// What an expression is compiled to.
#[derive(Debug, Drop)]
pub enum Network {
    /// The automaton of a language, whose words may have the edge.
    Words(Fsa<Bound<Sym>>),
    /// The transducer of a relation.
    Pairs(Fsa<Pair>),
    /// The transducer of a relation, on whose paths conditions stand.
    Flagged(Flagged),
}

impl Network {
    /// The transducer of what the network relates. A language relates each of its words that is without the edge to
    /// itself. Conditions are made states, which may be very many.
    pub fn into_pairs(self, alloc: Global) -> Result<Fsa<Pair>, AllocError>
        ensures symbols { IfOk result (λ m. (symbols : List Sym) → IsNetwork symbols self → UsesSymbols symbols m) }
        ensures pairs { IfOk result (λ m. AreSame (IsRelated m) (PairsOf self)) }
    {
        match self {
            Network::Words(words) => identity(alloc, &inside(alloc, &words)?),
            Network::Pairs(pairs) => Ok(pairs),
            Network::Flagged(flagged) => flagged.resolve(alloc),
        }
    }

    /// The automaton of a language.
    pub fn into_words(self) -> Fsa<Bound<Sym>>
        requires { kind_of_network self ≡ Kind.Language }
        ensures { self ≡ Words result }
    {
        match self {
            Network::Words(words) => words,
            Network::Pairs(_) | Network::Flagged(_) => unreachable!(),
        }
    }
}
