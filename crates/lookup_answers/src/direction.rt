/// Which words a look-up gives.
#[derive(Clone, Copy, Debug, PartialEq, Eq)]
pub enum Direction {
    /// The upper, lexical words of a lower word.
    Up,
    /// The lower, surface words of an upper word.
    Down,
}
