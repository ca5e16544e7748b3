ghost use Rattle.std.specs.Prelude.{◌≡◌, None, Some, MatchOption};
ghost use Rattle.twolc_tokens.specs.Spelling.{sides_of};
ghost use Rattle.twolc_tokens.specs.Reading.{IsColon};

/// The sides of an atom before and behind its `:`, which no `%` escapes; `None` where it has none.
pub fn sides(atom: &str) -> Option<(&str, &str)>
    ensures { MatchOption result (sides_of atom.now ≡ None) (λ x. sides_of atom.now ≡ Some (x.0.now, x.1.now)) }
{
    let Some(place) = colon(atom.as_bytes()) else {
        return None;
    };
    let (up, behind) = atom.split_at(place);
    let (_, low) = behind.split_at(1);
    Some((up, low))
}

/// The place of the first `:` that no `%` escapes.
fn colon(atom: &[u8]) -> Option<usize>
    ensures { IsColon atom.now result }
{
    let mut place = 0;
    let mut escaped = false;
    'bytes: while place < atom.len() {
        let byte = atom[place];
        if byte == b':' && !escaped {
            return Some(place);
        }
        escaped = byte == b'%' && !escaped;
        place += 1;
    }
    None
}
