/// What becomes of a string of pairs that is tried on the rules of a grammar.
#[derive(Clone, Copy, Debug, PartialEq, Eq)]
pub enum Verdict {
    /// It keeps each rule.
    Pass,
    /// It breaks a rule.
    Fail {
        /// The number of the first rule that it breaks, counted from 1.
        rule: u32,
        /// The first place at which it breaks that rule: one more than the number of pairs before it.
        place: u32,
    },
}
