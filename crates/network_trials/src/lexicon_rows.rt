use crate::lexicon_entries::lexicons_of;
use crate::lexicon_paths::related;
use flag_diacritics::resolve;
use fsa::Fsa;
use fsm_base::Pair;
use lexc_compile::lexicon;
use std::alloc::{AllocError, Global};

/// What the lexicons of a row relate.
pub fn said_of_row(alloc: Global, row: &str) -> Result<String, AllocError> {
    let mut flags = Vec::new(alloc);
    let lexicons = lexicons_of(alloc, row, &mut flags)?;
    if lexicons.is_empty() {
        return String::from_str(alloc, "no lexicon");
    }
    let tapes = lexicon(alloc, &lexicons, 0)?;
    listed(alloc, &resolve(alloc, &tapes, &flags)?)
}

/// What a network relates.
fn listed(alloc: Global, net: &Fsa<Pair>) -> Result<String, AllocError> {
    let mut said = String::new(alloc);
    for pair in &related(alloc, net)? {
        if !said.is_empty() {
            said.push(' ')?;
        }
        said.push_str(pair.as_str())?;
    }
    Ok(said)
}
