ghost use Rattle.std.specs.Prelude.{◌≡◌, ◌+◌, ◌<◌, ◌^◌, Contains, IfOk, length};
ghost use Rattle.pair_test.specs.Tests.{FitsRule, IsBrokenBy};
ghost use Rattle.pair_test.specs.Verdicts.{IsVerdict};
ghost use Rattle.pair_test.specs.declared.ready.RuleTest.{RuleTest};

use crate::holding::first_broken;
use crate::ready::RuleTest;
use crate::spelled::Spelled;
use crate::verdict::Verdict;
use std::alloc::{AllocError, Global};

/// The first of the rules that a string breaks with the first place at which it does, or that it keeps them all.
pub fn first_of(alloc: Global, rules: &[RuleTest], spelled: &Spelled) -> Result<Verdict, AllocError>
    requires fits { (t : RuleTest) → Contains rules.now t → FitsRule spelled.now t }
    requires letters { length spelled.now.forwards.items ≡ length spelled.now.word.now + 1 }
    requires few_rules { length rules.now < 2 ^ 32 }
    requires few_pairs { length spelled.now.word.now + 1 < 2 ^ 32 }
    ensures { IfOk result (IsVerdict (IsBrokenBy spelled.now.word.now) rules.now) }
{
    'rules: for (number, rule) in rules.iter().enumerate() {
        if let Some(before) = first_broken(alloc, rule, spelled)? {
            return Ok(Verdict::Fail {
                rule: number as u32 + 1,
                place: before as u32 + 1,
            });
        }
    }
    Ok(Verdict::Pass)
}
