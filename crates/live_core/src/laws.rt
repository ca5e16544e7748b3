ghost use Rattle.live_core.specs.Laws.{EnterAnswersLast, EnterSeesAll, GreatestNumberIsSeen, LearnThenEnter, NumbersNeverFall, PublishAddsOne, PublishedValuesStay, RefusalsChangeNothing, StatesStaySound};

/// At the beginning and after each event no reader has seen a number that wasn't published.
pub fn states_stay_sound<V: Copy>()
    ensures { StatesStaySound V }
{}

/// `NoReader`, `NotYet` and `NoRoom` change nothing.
pub fn refusals_change_nothing<V: Copy>()
    ensures { RefusalsChangeNothing V }
{}

/// Where there is room, publishing adds the value behind those that are there.
pub fn publish_adds_one<V: Copy>()
    ensures { PublishAddsOne V }
{}

/// Entering answers the last value and its number, which the reader has then seen.
pub fn enter_sees_all<V: Copy>()
    ensures { EnterSeesAll V }
{}

/// A reader that learns of the last value can enter it.
pub fn learn_then_enter<V: Copy>()
    ensures { LearnThenEnter V }
{}

/// After a list of events the published values are those before it and then those that it published, in their order.
pub fn published_values_stay<V: Copy>()
    ensures { PublishedValuesStay V }
{}

/// At any place of a list of events, entering answers the last value that was published before it, and its number.
pub fn enter_answers_last<V: Copy>()
    ensures { EnterAnswersLast V }
{}

/// What entering answers is at least each number that the reader was told before, by entering or learning.
pub fn numbers_never_fall<V: Copy>()
    ensures { NumbersNeverFall V }
{}

/// What a reader has seen after a list of events is the greatest of what it had seen and of what it was told.
pub fn greatest_number_is_seen<V: Copy>()
    ensures { GreatestNumberIsSeen V }
{}
