ghost use Rattle.std.specs.Prelude.{◌≡◌, ◌≤◌, ◌<◌, ◌-◌, ◌^◌, codes, length, IfErr, IfOk};
ghost use Rattle.std.specs.Str.{IsUtf8};
ghost use Rattle.generated_report.specs.Generated.{most_stems};
ghost use Rattle.project_sources.specs.Sources.{Said, project_in};
ghost use Rattle.project_store.specs.Loaded.{IsLoadedFrom};
ghost use Rattle.generated_report.specs.Counts.{AreCounts};
ghost use Rattle.generated_report.specs.Errors.{IsWhyNone};
ghost use Rattle.generated_report.specs.Reports.{IsReport};
ghost use Rattle.generated_report.specs.Words.{words_in};

use crate::counts::Counts;
use crate::networks::net_of;
use crate::project::made_project;
use crate::text::made_text;
use crate::told::told_of_words;
use crate::words::words_in;
use project_store::{Ready, StoreError, project_of};
use std::alloc::{AllocError, Global};
use std::str;
use std::thread::Threads;

/// The name in which the words are looked up.
const NET: &str = "Net";

/// Bytes that are a text.
fn text_of(bytes: &[u8]) -> &str
    requires { IsUtf8 bytes.now }
    ensures { result.now ≡ bytes.now }
{
    let Ok(text) = str::from_utf8(bytes) else {
        unreachable!()
    };
    text
}

/// The counts of a project and of the words of a text.
fn counts_of<R: Threads + Sync>(
    rt: &R,
    alloc: Global,
    ready: Ready,
    text: &str,
) -> Result<Counts, AllocError>
    requires { length text.now < 2 ^ 32 - 1 }
    ensures { (said : Said) → IsLoadedFrom said ready → IfOk result (AreCounts (project_in said) ready.glosses (codes "Net") (words_in text.now)) }
{
    let (project, built) = ready.into_parts();
    let compiled = net_of(alloc, &project, built, NET)?;
    let words = words_in(alloc, text)?;
    let told = told_of_words(
        rt,
        alloc,
        project.alphabet(),
        compiled.net(),
        project.glosses(),
        &words,
    )?;
    Ok(Counts::of(project.plan().definitions().len(), &told))
}

/// The report of the project of so many stems, from 1 to [`crate::project::MOST_STEMS`], and of its text: six lines, each a key, a space and a
/// number. They are `names`, how many networks the project has; `words`, how many words the text has; `one`, `many` and `none`, of
/// how many of these one string is found in `Net`, or more, or none; and `columns`, how many columns their analyses take. Each
/// word is looked up once.
///
/// # Errors
///
/// `Refused` with the first fault of the generated files, and `Memory` where there was no memory.
pub fn report<R: Threads + Sync>(rt: &R, alloc: Global, stems: u32) -> Result<Vec<u8>, StoreError>
    requires some { 1 ≤ stems }
    requires few { stems ≤ most_stems }
    ensures report { IfOk result (λ bytes. IsReport stems bytes.items) }
    ensures error { IfErr result (IsWhyNone stems) }
{
    let sources = made_project(alloc, stems)?;
    let ready = project_of(alloc, &sources)?;
    let text = made_text(alloc, stems)?;
    let counts = counts_of(rt, alloc, ready, text_of(&text))?;
    Ok(counts.lines(alloc)?)
}
