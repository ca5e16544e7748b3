ghost use Rattle.std.specs.Prelude.{◌≡◌, ◌++◌, List, ℕ, IfOk, OnOk};
ghost use Rattle.fsm_io.specs.Folders.{file_of};
ghost use Rattle.generated_report.specs.Generated.{entries, generated, lexicon};

use crate::stems::add_stem;
use project_sources::Sources;
use std::alloc::{AllocError, Global};

/// The most stems.
pub const MOST_STEMS: u32 = 20_000;

/// Puts the entries of the first stems behind bytes.
fn add_entries(stems: u32, bytes: &mut Vec<u8>) -> Result<(), AllocError>
    ensures { OnOk result (bytes.new.items ≡ bytes.old.items ++ entries stems) }
{
    'stems: for number in 0..stems {
        add_stem(number, bytes)?;
        bytes.extend_from_slice(b" Num ;\n")?;
    }
    Ok(())
}

/// Bytes of their own.
fn owned(alloc: Global, bytes: &[u8]) -> Result<Vec<u8>, AllocError>
    ensures { IfOk result (λ copy. copy.items ≡ bytes.now) }
{
    let mut copy = Vec::new(alloc);
    copy.extend_from_slice(bytes)?;
    Ok(copy)
}

/// The file of lexicons of so many stems.
fn lexicon(alloc: Global, stems: u32) -> Result<Vec<u8>, AllocError>
    ensures { IfOk result (λ bytes. bytes.items ≡ lexicon stems) }
{
    let mut bytes = owned(alloc, b"Multichar_Symbols +N +Sg +Pl\nLEXICON Root\n")?;
    add_entries(stems, &mut bytes)?;
    bytes.extend_from_slice(b"LEXICON Num\n+N+Sg:0 # ;\n+N+Pl:^s # ;\nEND\n")?;
    Ok(bytes)
}

/// The files of the project of so many stems: the manifest, a file of lexicons and one of rules.
pub fn made_project(alloc: Global, stems: u32) -> Result<Sources, AllocError>
    ensures { IfOk result (λ sources. (name : List ℕ) → file_of name sources ≡ file_of name (generated stems)) }
{
    let mut sources = Sources::new(alloc);
    let rules = owned(
        alloc,
        b"define Rules o -> {oe} || _ \"^\" s .o. \"^\" -> 0 ;\ndefine Net Lex .o. Rules ;\n",
    )?;
    sources.put("r.xfst", rules)?;
    sources.put("n.lexc", lexicon(alloc, stems)?)?;
    sources.put("project", owned(alloc, b"lexc Lex n.lexc\nxfst r.xfst\n")?)?;
    Ok(sources)
}
