ghost use Rattle.std.specs.Prelude.{◌≡◌, false, IfOk};
ghost use Rattle.std.specs.String.{string_bytes};
ghost use Rattle.regex_tokens.specs.Reading.{undone_from};

use std::alloc::{AllocError, Global};

/// A run without the `%`s that escape what is behind them.
pub fn undone(alloc: Global, run: &str) -> Result<String, AllocError>
    ensures { IfOk result (λ undone. string_bytes undone ≡ undone_from false run.now) }
{
    let mut undone = String::new(alloc);
    let mut escaped = false;
    for character in run.chars() {
        if character == '%' && !escaped {
            escaped = true;
        } else {
            undone.push(character)?;
            escaped = false;
        }
    }
    Ok(undone)
}
