ghost use Rattle.std.specs.Prelude.{◌≡◌, IfSome, Some, slice_get};

use crate::Letter;
use std::alloc::Global;

/// How many marks there are.
const MARKS: usize = 1_024;

/// For each mark a place at which a thing with that mark may stand. Things have few marks in common, so that a look at the hint is
/// enough where they would be hashed or compared with others. Nothing is said of a hint: who takes one looks at what stands there.
#[derive(Drop)]
pub struct Hints {
    /// The place of each mark's last thing, or nothing at all.
    places: Vec<usize>,
}

impl Hints {
    /// No hints.
    pub fn new(alloc: Global) -> Hints {
        Hints {
            places: Vec::new(alloc),
        }
    }

    /// A place at which a thing with this mark may stand. Another one may stand there, or none.
    pub fn place_for(&self, mark: usize) -> Option<usize> {
        self.places.get(mark % MARKS).copied()
    }

    /// The place of a letter in a list of letters, if it stands where the hint for its mark leads.
    pub fn place_of<L: Letter>(&self, letters: &[L], letter: L) -> Option<usize>
        ensures { IfSome result (λ place. slice_get letters.now place ≡ Some letter) }
    {
        let place = self.place_for(letter.mark())?;
        let found = letters.get(place)?;
        if *found == letter { Some(place) } else { None }
    }

    /// Notes where a thing with this mark stands. Without memory for hints there are none.
    pub fn note(&mut self, alloc: Global, mark: usize, place: usize) {
        if self.places.is_empty() {
            if let Ok(places) = vec![in alloc; 0; MARKS] {
                self.places = places;
            }
        }
        if let Some(noted) = self.places.get_mut(mark % MARKS) {
            *noted = place;
        }
    }
}
