/// How the answering of an input ended.
#[derive(Clone, Copy, Debug, PartialEq, Eq)]
pub enum Ending {
    /// The input was read to its end and everything was written.
    Finished,
    /// A write to the output failed.
    WriteFailed,
    /// A read of the input failed.
    ReadFailed,
    /// The input's budget of bytes was spent.
    Spent,
}
