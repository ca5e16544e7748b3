ghost use Rattle.std.specs.Prelude.{◌↔◌, IfOk, List, reverse};
ghost use Rattle.fsm_base.specs.declared.letters.Pair.{Pair};
ghost use Rattle.fsm_base.specs.declared.letters.Sym.{Sym};
ghost use Rattle.fsa.specs.Automaton.{UsesLetter};
ghost use Rattle.word_relations.specs.Relations.{AreSame};
ghost use Rattle.fst_algebra.specs.Relation.{IsRelated};
ghost use Rattle.replace_directed.specs.Turned.{AreMatched, IsTurned, IsTurnedContext, IsTurnedMap};

use fsa::Fsa;
use fsa_reduce::reduced;
use fsm_base::{Letter, Pair};
use lang_algebra::Lang;
use replace_rules::{LangContext, LangMap};
use std::alloc::{AllocError, Global};

/// The mappings, each turned round.
pub fn turned_maps(alloc: Global, maps: &[LangMap]) -> Result<Vec<LangMap>, AllocError>
    ensures { IfOk result (λ turned. AreMatched IsTurnedMap maps.now turned.items) }
{
    let mut turned = Vec::new(alloc);
    for map in maps {
        turned.push(turned_map(alloc, map)?)?;
    }
    Ok(turned)
}

/// The mapping turned round: what it puts before a centre it puts behind it.
fn turned_map(alloc: Global, map: &LangMap) -> Result<LangMap, AllocError>
    ensures { IfOk result (IsTurnedMap map.now) }
{
    let centre = turned_lang(alloc, &map.centre)?;
    let result = turned_lang(alloc, &map.result)?;
    match &map.after {
        None => Ok(LangMap {
            centre,
            result,
            after: None,
        }),
        Some(after) => {
            let before = turned_lang(alloc, after)?;
            Ok(LangMap {
                centre,
                result: before,
                after: Some(result),
            })
        }
    }
}

/// The contexts, each turned round.
pub fn turned_contexts(
    alloc: Global,
    contexts: &[LangContext],
) -> Result<Vec<LangContext>, AllocError>
    ensures { IfOk result (λ turned. AreMatched IsTurnedContext contexts.now turned.items) }
{
    let mut turned = Vec::new(alloc);
    for context in contexts {
        turned.push(turned_context(alloc, context)?)?;
    }
    Ok(turned)
}

/// The context turned round.
fn turned_context(alloc: Global, context: &LangContext) -> Result<LangContext, AllocError>
    ensures { IfOk result (IsTurnedContext context.now) }
{
    let left = turned_lang(alloc, &context.right)?;
    let right = turned_lang(alloc, &context.left)?;
    Ok(LangContext { left, right })
}

/// The words of a language read backwards.
fn turned_lang<L: Letter>(alloc: Global, lang: &Lang<L>) -> Result<Lang<L>, AllocError>
    ensures { IfOk result (IsTurned lang.now) }
{
    lang.reverse(alloc)
}

/// The network that relates all words turned round.
pub fn turned_network(alloc: Global, network: &Fsa<Pair>) -> Result<Fsa<Pair>, AllocError>
    ensures letters { IfOk result (λ m. (x : Pair) → UsesLetter m x → UsesLetter network.now x) }
    ensures relation { IfOk result (λ m. AreSame (IsRelated m) (λ u w. IsRelated network.now (reverse u) (reverse w))) }
{
    let backwards = fsa_rational::reverse(alloc, network)?;
    reduced(alloc, &backwards)
}
