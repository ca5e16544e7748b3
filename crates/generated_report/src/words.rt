ghost use Rattle.std.specs.Prelude.{◌≡◌, ◌≤◌, All, length, IfOk};
ghost use Rattle.generated_report.specs.Words.{words_in};

use fsm_base::Text;
use interlinear::words_of;
use std::alloc::{AllocError, Global};

/// The words of a text, line by line. None is longer than the text.
pub fn words_in(alloc: Global, text: &str) -> Result<Vec<Text>, AllocError>
    ensures words { IfOk result (λ words. words.items ≡ words_in text.now) }
    ensures within { IfOk result (λ words. All (λ word. length word ≤ length text.now) words.items) }
{
    let mut words = Vec::new(alloc);
    let mut rest = text;
    'lines: while let Some((line, behind)) = rest.split_once('\n') {
        words.append(&mut words_of(alloc, line)?)?;
        rest = behind;
    }
    words.append(&mut words_of(alloc, rest)?)?;
    Ok(words)
}
