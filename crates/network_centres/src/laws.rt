ghost use Rattle.network_centres.specs.EmptyCentres.{EmptyCentresUnfold, RecursionTellsEmptyCentres};
ghost use Rattle.network_centres.specs.Insertions.{InsertionFillsPlaces};

/// Where no name reaches itself, a name has an empty centre where its definition has an own one, and none to which that refers, in any
/// number of steps, has an empty centre.
pub fn empty_centres_unfold()
    ensures { EmptyCentresUnfold }
{}

/// Names that are told by this recursion are those that have an empty centre.
pub fn recursion_tells_empty_centres()
    ensures { RecursionTellsEmptyCentres }
{}

/// `[..] -> A` puts at each place of the upper word a word of A where no context is asked for or one holds, and nothing elsewhere, each
/// place once. `[..] (->) A` may put nothing there, too.
pub fn insertion_fills_places()
    ensures { InsertionFillsPlaces }
{}
