ghost use Rattle.std.specs.Prelude.{Contains, IfOk, List};
ghost use Rattle.word_relations.specs.Relations.{AreSame};
ghost use Rattle.fsm_base.specs.declared.letters.Sym.{Sym};
ghost use Rattle.fst_algebra.specs.Relation.{IsRelated};
ghost use Rattle.fst_algebra.specs.Relations.{UsesLower, UsesUpper};
ghost use Rattle.fst_flagged.specs.Flagged.{FlaggedRelates, UsesLetters};

use crate::condition::flags_of;
use crate::flagged::Flagged;
use crate::images::AsTapes;
use flag_diacritics::resolve;
use fsa::Fsa;
use fsm_base::Pair;
use fst_algebra::substituted;
use std::alloc::{AllocError, Global};

impl Flagged {
    /// The transducer of what this one relates, its conditions made states. It may have very many of these.
    pub fn resolve(&self, alloc: Global) -> Result<Fsa<Pair>, AllocError>
        ensures upper { IfOk result (λ m. (symbols : List Sym) → UsesLetters symbols self.now → (x : Sym) → UsesUpper m x → Contains symbols x) }
        ensures lower { IfOk result (λ m. (symbols : List Sym) → UsesLetters symbols self.now → (x : Sym) → UsesLower m x → Contains symbols x) }
        ensures relation { IfOk result (λ m. AreSame (IsRelated m) (FlaggedRelates self.now)) }
    {
        let conditions = self.conditions.as_slice();
        let tapes = substituted(alloc, &self.net, &AsTapes { conditions })?;
        let flags = flags_of(alloc, conditions)?;
        resolve(alloc, &tapes, flags.as_slice())
    }
}
