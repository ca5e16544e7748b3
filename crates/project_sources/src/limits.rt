/// The most bytes of a file. `specs/Limits.antt` has this and the following as numbers of definitions.
pub const MOST_BYTES: usize = 1_048_576;

/// The most names of a project.
pub const MOST_NAMES: usize = 512;

/// The most symbols of its alphabet.
pub const MOST_SYMBOLS: usize = 1024;
