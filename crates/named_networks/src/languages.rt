ghost use Rattle.std.specs.Prelude.{◌≡◌, IfOk};
ghost use Rattle.word_relations.specs.Words.{IsDistinct};
ghost use Rattle.expr_kinds.specs.declared.form.Kind.TheVariants as kinds;
ghost use Rattle.lang_algebra.specs.Languages.{IsLang};
ghost use Rattle.network_algebra.specs.Networks.{IsNetwork, PairsOf, kind_of_network};

use fsm_base::Sym;
use fst_algebra::upper;
use lang_algebra::Lang;
use network_build::Network;
use std::alloc::{AllocError, Global};

/// The language of a network that is one, over these symbols: the words that the network relates to themselves.
pub(crate) fn language_of(
    alloc: Global,
    symbols: &[Sym],
    network: Network,
) -> Result<Lang<Sym>, AllocError>
    requires distinct { IsDistinct symbols.now }
    requires over { IsNetwork symbols.now network }
    requires kind { kind_of_network network ≡ kinds.Language }
    ensures { IfOk result (IsLang symbols.now (λ word. PairsOf network word word)) }
{
    let pairs = network.into_pairs(alloc)?;
    Lang::of(alloc, symbols, &upper(alloc, &pairs)?)
}
