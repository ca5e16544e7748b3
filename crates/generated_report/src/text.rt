ghost use Rattle.std.specs.Prelude.{◌≡◌, ◌≤◌, ◌<◌, ◌*◌, ◌++◌, IfOk, OnOk};
ghost use Rattle.generated_report.specs.Generated.{behind, by_turn, most_stems, stem as stem_text, text, word};

use crate::stems::{add_stem, ends_in_o};
use std::alloc::{AllocError, Global};

/// Puts a stem at its turn behind bytes.
fn add_by_turn(turn: u32, stem: u32, bytes: &mut Vec<u8>) -> Result<(), AllocError>
    ensures { OnOk result (bytes.new.items ≡ bytes.old.items ++ by_turn turn (stem_text stem)) }
{
    add_stem(stem, bytes)?;
    match turn {
        1 if ends_in_o(stem) => bytes.extend_from_slice(b"es")?,
        1 => bytes.extend_from_slice(b"s")?,
        3 => bytes.extend_from_slice(b"ss")?,
        _ => {}
    }
    Ok(())
}

/// Puts word `place`, counted from 0, behind bytes.
#[tactic(auto, unfolding(crate::specs::Generated::most_stems))]
fn add_word(stems: u32, place: u32, bytes: &mut Vec<u8>) -> Result<(), AllocError>
    requires some { 1 ≤ stems }
    requires few { stems ≤ most_stems }
    requires below { place < 4 * stems }
    ensures { OnOk result (bytes.new.items ≡ bytes.old.items ++ word stems place) }
{
    add_by_turn(place % 4, (7 * place + 3) % stems, bytes)
}

/// What stands behind word `place`.
#[tactic(auto, unfolding(crate::specs::Generated::most_stems))]
fn behind(stems: u32, place: u32) -> &'static [u8]
    requires few { stems ≤ most_stems }
    requires below { place < 4 * stems }
    ensures { result.now ≡ behind stems place }
{
    if place % 8 == 7 || place + 1 == 4 * stems {
        b"\n"
    } else {
        b" "
    }
}

/// The text of a project of so many stems, four words a stem and eight in a line.
#[tactic(auto, unfolding(crate::specs::Generated::most_stems))]
pub fn made_text(alloc: Global, stems: u32) -> Result<Vec<u8>, AllocError>
    requires some { 1 ≤ stems }
    requires few { stems ≤ most_stems }
    ensures { IfOk result (λ bytes. bytes.items ≡ text stems) }
{
    let mut bytes = Vec::new(alloc);
    'words: for place in 0..4 * stems {
        add_word(stems, place, &mut bytes)?;
        bytes.extend_from_slice(behind(stems, place))?;
    }
    Ok(bytes)
}
