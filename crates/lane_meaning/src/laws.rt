ghost use Rattle.lane_meaning.specs.Laws.{BehindIsLast, BehindIsOneValue, EntersForEach, LaneGrows, NumbersNeverFall};

use crate::replying::Replying;

/// What a lane's output gets over the values so far is what it gets over all values.
pub fn lane_grows<V: Replying>()
    ensures { LaneGrows V.replies }
{}

/// The numbers of a lane's replies never fall.
pub fn numbers_never_fall<V: Replying>()
    ensures { NumbersNeverFall V.replies }
{}

/// The seat of a lane entered for each of its lines before the first mark.
pub fn enters_for_each<V: Replying>()
    ensures { EntersForEach V.replies }
{}

/// Behind its first mark a lane is answered at the last value.
pub fn behind_is_last<V: Replying>()
    ensures line { BehindIsLast V.replies }
    ensures transcript { BehindIsOneValue V.replies }
{}
