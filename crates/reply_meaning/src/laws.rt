ghost use Rattle.reply_meaning.specs.OneReply.{OneReply};
ghost use Rattle.reply_meaning.specs.OneTranscript.{OneTranscript};

/// The law that a line has one reply: two lawful ones are the same, unless one says that there was no memory, or both show a
/// loop, of which there may be several. It does nothing when it runs.
pub fn one_reply()
    ensures { OneReply }
{}

/// The law that lines that are looked up have one transcript, but for replies that may differ by the law of one line. It does
/// nothing when it runs.
pub fn one_transcript()
    ensures { OneTranscript }
{}
