use fsm_base::Text;

/// An edit of a project's files.
#[derive(Debug, Drop)]
pub enum Edit {
    /// A whole file, in the place of the one of its name or beside the others.
    Put {
        /// The file's name.
        file: Text,
        /// Its content.
        bytes: Vec<u8>,
    },
    /// Lines of a file in the place of some of its lines. A last line without newline is a line, and each gets its newline.
    Splice {
        /// The file's name.
        file: Text,
        /// The first line that is replaced, counted from 1; one behind the last line to put lines there.
        from: u32,
        /// How many lines are replaced.
        count: u32,
        /// The lines that stand for them.
        bytes: Vec<u8>,
    },
    /// A file is there no more.
    Drop {
        /// The file's name.
        file: Text,
    },
}
