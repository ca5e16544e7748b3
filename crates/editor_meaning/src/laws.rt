ghost use Rattle.project_sources.specs.Faults.{rows};
ghost use Rattle.project_sources.specs.Laws.{all_readers};
ghost use Rattle.editor_meaning.specs.Laws.{NumbersCount, OneReading, OneReplyToOrder, RefusedMakesNone};
ghost use Rattle.editor_meaning.specs.OneTranscript.{LookUpsChangeNothing, OneLoaded, OneTranscript, OneTurn};

/// Lines are one list of orders only.
pub fn one_reading()
    ensures { OneReading }
{}

/// An order that looks nothing up has one reply and leaves one batch, but for want of memory.
pub fn one_reply_to_order()
    ensures { OneReplyToOrder all_readers rows }
{}

/// An order has one reply and makes one version or none, but for want of memory and for which loop a look-up shows.
pub fn one_turn()
    ensures { OneTurn all_readers rows }
{}

/// A look-up makes no version, and leaves the batch as it is.
pub fn look_ups_change_nothing()
    ensures { LookUpsChangeNothing all_readers rows }
{}

/// Files are one version when they are loaded.
pub fn one_loaded()
    ensures { OneLoaded all_readers rows }
{}

/// From one version on, lines have one transcript and make one list of versions, up to the first order for which one transcript had
/// no memory and the other had, and but for the replies to look-ups that may differ.
pub fn one_transcript()
    ensures { OneTranscript all_readers rows }
{}

/// A change that is refused makes no version.
pub fn refused_makes_none()
    ensures { RefusedMakesNone all_readers rows }
{}

/// The versions that orders make are numbered from the present one on.
pub fn numbers_count()
    ensures { NumbersCount all_readers rows }
{}
