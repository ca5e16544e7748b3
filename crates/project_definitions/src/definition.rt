use fsm_base::Text;
use regex_ast::{Atom, Expr, Grammar, Lexicon};

/// A definition of a project.
#[derive(Debug, Drop)]
pub struct Definition {
    /// The defined name.
    pub name: Text,
    /// The line of its statement, counted from 1: that of the manifest where it names a lexc or twolc file.
    pub line: u32,
    /// The file of its statement.
    pub file: Text,
    /// What the name stands for, its leaves resolved to names and symbols.
    pub body: Body<Atom>,
}

/// What a name stands for.
#[derive(Debug, Drop)]
pub enum Body<A> {
    /// An expression of an xfst file.
    Xfst(Expr<A>),
    /// The lexicons of a lexc file.
    Lexc(Vec<Lexicon<A>>),
    /// The grammar of a twolc file.
    Twolc(Grammar<A>),
}
