ghost use Rattle.std.specs.Prelude.{◌≡◌, Some, MatchOption, Contains, slice_get};

use fsm_base::Letter;

/// A place at which a letter stands in a list, counted from 0, or None where it doesn't stand there. In a list
/// that is sorted it is found by halving, in another one in time of the list's length.
pub fn place_of<L: Letter>(letters: &[L], letter: L) -> Option<usize>
    ensures { MatchOption result (¬ Contains letters.now letter) (λ k. slice_get letters.now k ≡ Some letter) }
{
    if let Ok(place) = letters.binary_search(&letter) {
        return Some(place);
    }
    scan(letters, letter)
}

/// The first place at which a letter stands, found by a look at each.
fn scan<L: Letter>(letters: &[L], letter: L) -> Option<usize>
    ensures { MatchOption result (¬ Contains letters.now letter) (λ k. slice_get letters.now k ≡ Some letter) }
{
    for (place, x) in letters.iter().enumerate() {
        if *x == letter {
            return Some(place);
        }
    }
    None
}
