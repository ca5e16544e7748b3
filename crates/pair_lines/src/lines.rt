ghost use Rattle.std.specs.Prelude.{◌≡◌, ◌++◌, codes, decimal, IfOk, length};
ghost use Rattle.reply_meaning.specs.Replies.{headed};
ghost use Rattle.pair_lines.specs.Numbers.{IsWithin, verdict_line};

use fsm_base::Text;
use pair_test::Verdict;
use std::alloc::{AllocError, Global};

/// The line for a name that isn't defined by a twolc file: `V kind NAME`.
pub fn no_grammar(alloc: Global, version: u64, name: &str) -> Result<Vec<u8>, AllocError>
    ensures { IfOk result (λ bytes. bytes.items ≡ headed version (codes "kind " ++ name.now)) }
{
    Ok(format!(in alloc; "{version} kind {name}\n")?.into_bytes())
}

/// The reply to a line that is no pair string: `V line`.
pub fn no_string(alloc: Global, version: u64) -> Result<Vec<u8>, AllocError>
    ensures { IfOk result (λ bytes. bytes.items ≡ headed version (codes "line")) }
{
    Ok(format!(in alloc; "{version} line\n")?.into_bytes())
}

/// The reply to a string whose pair of this number, counted from 1, isn't feasible: `V pair K`.
pub fn no_pair(alloc: Global, version: u64, number: usize) -> Result<Vec<u8>, AllocError>
    ensures { IfOk result (λ bytes. bytes.items ≡ headed version (codes "pair " ++ decimal number)) }
{
    Ok(format!(in alloc; "{version} pair {number}\n")?.into_bytes())
}

/// The reply to a string that was tried on rules of these names: `V pass`, or `V fail RULE PLACE NAME`.
pub fn tried(
    alloc: Global,
    version: u64,
    names: &[Text],
    verdict: Verdict,
) -> Result<Vec<u8>, AllocError>
    requires { IsWithin (length names.now) verdict }
    ensures { IfOk result (λ bytes. bytes.items ≡ verdict_line version names.now verdict) }
{
    let line = match verdict {
        Verdict::Pass => format!(in alloc; "{version} pass\n")?,
        Verdict::Fail { rule, place } => {
            let name = names[rule as usize - 1].as_str();
            format!(in alloc; "{version} fail {rule} {place} {name}\n")?
        }
    };
    Ok(line.into_bytes())
}
