ghost use Rattle.interlinear.specs.OneBlock.{OneBlock};

/// The law that a line has one gloss: two lawful replies to it are the same, unless one says that there was no memory. It
/// does nothing when it runs.
pub fn one_block()
    ensures { OneBlock }
{}
