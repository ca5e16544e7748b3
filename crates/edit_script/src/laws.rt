ghost use Rattle.edit_script.specs.Commands.{OneCommand, OneLook};

/// The law that a line is one command only. It does nothing when it runs.
pub fn one_command()
    ensures { OneCommand }
{}

/// The law that a line is one look-up only. It does nothing when it runs.
pub fn one_look()
    ensures { OneLook }
{}
