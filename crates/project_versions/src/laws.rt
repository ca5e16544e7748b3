ghost use Rattle.project_versions.specs.Laws.{OneReplyToLook};

/// The law that a lane's line has one reply at a version: two lawful ones are the same, unless the line asks for words or glosses and
/// one of them says that there was no memory, or it asks for words and both show a loop, of which there may be several. It does
/// nothing when it runs.
pub fn one_reply_to_look()
    ensures { OneReplyToLook }
{}
