ghost use Rattle.std.specs.Prelude.{IfOk};
ghost use Rattle.project_sources.specs.Sources.{Said, project_in};
ghost use Rattle.project_store.specs.Loaded.{IsLoadedFrom};
ghost use Rattle.named_networks.specs.Responses.{response_of};
ghost use Rattle.named_networks.specs.Texts.{IsAtt};

use crate::fields::{are_unbroken, has_symbol};
use crate::lines::zero_symbol;
use crate::told::Told;
use att_text::write_att;
use project_store::{Ready, network_at};
use reply_text::no_net;
use std::alloc::{AllocError, Global};

/// The text by which a side without symbol is told.
const NO_SYMBOL: &str = "@0@";

/// The AT&T text of a name's network, or why there is none, tried in this order: `V net NAME` where the project doesn't define the name,
/// and `V zero-symbol` where one of its symbols is `@0@`, which in a text is no symbol.
///
/// The networks of the definitions that the project puts before the name are built, and flags that the network keeps are made states.
pub fn att(alloc: Global, ready: Ready, version: u64, name: &str) -> Result<Told, AllocError>
    ensures { (said : Said) → IsLoadedFrom said ready → IfOk result (λ told. IsAtt (project_in said) version name.now (response_of told)) }
{
    let (project, built) = ready.into_parts();
    let alphabet = project.alphabet();
    let Some(place) = project.find(name) else {
        return Ok(Told::Refusal(no_net(alloc, version, name)?));
    };
    if has_symbol(alloc, alphabet, NO_SYMBOL)? {
        return Ok(Told::Refusal(zero_symbol(alloc, version)?));
    }
    // No source can write such a symbol; that isn't among what is known of a project, so that it is tested.
    if !are_unbroken(alloc, alphabet)? {
        return Err(AllocError);
    }
    let network = network_at(alloc, &project, built, place)?;
    let pairs = network.into_pairs(alloc)?;
    Ok(Told::Answer(write_att(alloc, &pairs, alphabet)?))
}
