ghost use Rattle.std.specs.Prelude.{IfOk};
ghost use Rattle.replace_rules.specs.Alike.{IsDivided};
ghost use Rattle.replace_directed.specs.Alike.{AreFirstsOf, RuleIsLike};

use fsa_explore::alike_in_both;
use fsm_base::Sym;
use replace_rules::{LangContext, LangMap, firsts_in, inside, told_by_group};
use std::alloc::{AllocError, Global};

/// For each of the symbols the first of those that no part of the rule tells from it.
pub fn firsts_of(
    alloc: Global,
    syms: &[Sym],
    maps: &[LangMap],
    contexts: &[LangContext],
) -> Result<Vec<Sym>, AllocError>
    ensures { IfOk result (λ firsts. AreFirstsOf syms.now maps.now contexts.now firsts.items) }
{
    let numbers = numbered(alloc, syms, maps, contexts)?;
    let classes = alike_in_both(alloc, &numbers, &numbers)?;
    firsts_in(alloc, syms, &classes.of_places, &classes.firsts)
}

/// A number for each symbol; those that have the same are told apart by no part of the rule.
fn numbered(
    alloc: Global,
    syms: &[Sym],
    maps: &[LangMap],
    contexts: &[LangContext],
) -> Result<Vec<usize>, AllocError>
    ensures { IfOk result (λ numbers. IsDivided syms.now numbers.items (RuleIsLike maps.now contexts.now)) }
{
    let bounds = inside(alloc, syms)?;
    let numbers = vec![in alloc; 0; syms.len()]?;
    told_by_group(alloc, syms, &bounds, maps, contexts, numbers)
}
