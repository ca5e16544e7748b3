ghost use Rattle.touched_names.specs.Laws.{TouchSpreads, UntouchedNamesStay};

/// A name that isn't touched stays what it was: its definition, what it relates, and whether it has an own empty centre.
pub fn untouched_names_stay()
    ensures { UntouchedNamesStay }
{}

/// A name that reaches a touched name is touched.
pub fn touch_spreads()
    ensures { TouchSpreads }
{}
