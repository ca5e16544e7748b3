ghost use Rattle.std.specs.Prelude.{◌≡◌, ◌<◌, ◌+◌, ◌++◌, ◌∷◌, List, ℕ, IfOk, OnOk, length, map};
ghost use Rattle.project_manifest.specs.Manifests.{lines_of, sayings, statements_in};
ghost use Rattle.project_manifest.specs.Sayings.{saying_of};

use crate::words::{is_epsilon, lines, words};
use std::alloc::{AllocError, Global};

/// A line that says something: its number, counted from 1, and its words as they are written.
#[derive(Debug, Drop)]
pub struct Said {
    /// The number of the line, counted from 1.
    pub line: u32,
    /// Its words as they are written, at least one.
    pub words: Vec<Vec<u8>>,
}

/// Puts a line, which has this number counted from 0, behind those that say something, where it says something.
fn add_said(
    alloc: Global,
    index: usize,
    line: &[u8],
    found: &mut Vec<Said>,
) -> Result<(), AllocError>
    requires { index + 1 < 4294967296 }
    ensures { OnOk result ((rest : List (List ℕ)) → map saying_of found.new.items ++ sayings (index + 1 + 1) rest ≡ map saying_of found.old.items ++ sayings (index + 1) (line.now ∷ rest)) }
{
    let words = words(alloc, line)?;
    if is_epsilon(&words) {
        return Ok(());
    }
    found.push(Said {
        line: (index + 1) as u32,
        words,
    })?;
    Ok(())
}

/// The lines of a text that say something.
pub fn all_said(alloc: Global, text: &[u8]) -> Result<Vec<Said>, AllocError>
    requires { length (lines_of text.now) < 4294967295 }
    ensures { IfOk result (λ found. map saying_of found.items ≡ statements_in text.now) }
{
    let lines = lines(alloc, text)?;
    let mut found = Vec::new(alloc);
    'lines: for (index, line) in lines.iter().enumerate() {
        add_said(alloc, index, line, &mut found)?;
    }
    Ok(found)
}
