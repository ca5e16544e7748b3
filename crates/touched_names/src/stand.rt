use fsm_base::Alphabet;
use project_definitions::Definition;

/// Definitions of a project, their leaves over the numbers of its alphabet.
#[derive(Clone, Copy)]
pub struct Stand<'a> {
    /// The definitions, in the order of their places.
    pub definitions: &'a [Definition],
    /// The alphabet. The number of a symbol is its place there.
    pub alphabet: &'a Alphabet,
}
