ghost use Rattle.saved_networks.specs.OneReply.{OneReply};

/// The law that a line has one lawful reply by a text, but for want of memory and for which loop is shown. It does nothing when it runs.
pub fn one_reply()
    ensures { OneReply }
{}
