/// Which of the matches at one place goes first.
#[derive(Clone, Copy, Debug, PartialEq, Eq)]
pub enum Length {
    /// The longest.
    Longest,
    /// The shortest.
    Shortest,
}
