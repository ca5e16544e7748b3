use fsm_base::{Sym, Text};

/// A leaf as it was written, its escapes undone.
#[derive(Debug, Drop)]
pub enum Raw {
    /// A run of characters: a symbol, or a name where the project defines one.
    Run(Text),
    /// A symbol in quotes, or one with an escape, which is never a name.
    Quoted(Text),
}

/// A leaf after names are resolved.
#[derive(Clone, Copy, Debug, PartialEq, Eq, PartialOrd, Ord, Hash)]
pub enum Atom {
    /// A symbol.
    Sym(Sym),
    /// A definition, by its place among the project's definitions, counted from 0.
    Name(u32),
}

/// An xfst expression over leaves of type `A` (Beesley and Karttunen, Finite State Morphology, 2003,
/// chapter 2). Operators of one level in a row form one node; a list in a node isn't empty.
#[cycle(expr)]
#[derive(Debug, Drop)]
pub enum Expr<A> {
    /// The empty string, in any spelling.
    Empty,
    /// `?`, any one symbol of the alphabet.
    Any,
    /// `.#.`, the edge of the word.
    Edge,
    /// One symbol or name.
    Atom(A),
    /// `{..}`, its characters as symbols.
    Letters(Vec<A>),
    /// `[E]`.
    Group(Box<Expr<A>>),
    /// `(E)`, E or the empty string.
    Maybe(Box<Expr<A>>),
    /// `\E`, one symbol that isn't in E, with the number of backslashes.
    NotOne(u32, Box<Expr<A>>),
    /// `E:F`, the words of E with those of F.
    Cross(Box<Expr<A>>, Box<Expr<A>>),
    /// E and its suffixes, in their order.
    Suffixed(Box<Expr<A>>, Vec<Suffix>),
    /// Prefixes, in the order in which they are written, and E.
    Prefixed(Vec<Prefix>, Box<Expr<A>>),
    /// `E/F/..`, from left to right.
    Ignore(Vec<Expr<A>>),
    /// Expressions side by side.
    Concat(Vec<Expr<A>>),
    /// A row of `|`, `&` and `-`, from left to right.
    Chain(Box<Expr<A>>, Vec<Link<A>>),
    /// `E => L _ R, ..`.
    Only(Box<Expr<A>>, Vec<Context<A>>),
    /// Replacement.
    Rules(RuleSet<A>),
    /// Directed replacement.
    Directed(Directed<A>),
    /// A row of `.x.` and `.o.`, from left to right.
    Steps(Box<Expr<A>>, Vec<Step<A>>),
}

/// An operator behind its operand.
#[derive(Clone, Copy, Debug, PartialEq, Eq)]
pub enum Suffix {
    /// `*`, any number.
    Star,
    /// `+`, one or more.
    Plus,
    /// `^n`, n times.
    Power(u32),
    /// `.u`, the upper side.
    Upper,
    /// `.l`, the lower side.
    Lower,
    /// `.i`, the inverse.
    Inverse,
    /// `.r`, the reverse.
    Reverse,
}

/// An operator before its operand.
#[derive(Clone, Copy, Debug, PartialEq, Eq)]
pub enum Prefix {
    /// `~`, the words that aren't in it.
    Not,
    /// `$`, the words that contain one of its words.
    Contains,
}

/// An operand of a row of `|`, `&` and `-`, with the operator before it.
#[cycle(expr)]
#[derive(Debug, Drop)]
pub enum Link<A> {
    /// `|`.
    Or(Expr<A>),
    /// `&`.
    And(Expr<A>),
    /// `-`.
    Less(Expr<A>),
}

/// An operand of a row of `.x.` and `.o.`, with the operator before it.
#[cycle(expr)]
#[derive(Debug, Drop)]
pub enum Step<A> {
    /// `.x.`.
    CrossWith(Expr<A>),
    /// `.o.`.
    Then(Expr<A>),
}

/// Groups of mappings that replace side by side (Kempe and Karttunen, Parallel Replacement in Finite
/// State Calculus, 1996).
#[cycle(expr)]
#[derive(Debug, Drop)]
pub struct RuleSet<A> {
    /// `(->)`: a match may stay as it is.
    pub optional: bool,
    /// The groups.
    pub groups: Vec<Group<A>>,
}

/// Mappings of which the longest or the shortest match goes first, from one end of the word (Karttunen, Directed Replacement, 1996).
#[cycle(expr)]
#[derive(Debug, Drop)]
pub struct Directed<A> {
    /// From which end, and which match.
    pub way: Way,
    /// The mappings.
    pub maps: Vec<Mapping<A>>,
    /// The contexts, one of which must hold on the upper side; where there are none, no context is asked for.
    pub contexts: Vec<Context<A>>,
}

/// Mappings that share their contexts.
#[cycle(expr)]
#[derive(Debug, Drop)]
pub struct Group<A> {
    /// The mappings.
    pub maps: Vec<Mapping<A>>,
    /// On which side of the relation the contexts are read.
    pub side: Side,
    /// The contexts, one of which must hold; where there are none, no context is asked for.
    pub contexts: Vec<Context<A>>,
}

/// What is replaced, and by what.
#[cycle(expr)]
#[derive(Debug, Drop)]
pub enum Mapping<A> {
    /// `centre -> result`.
    Plain {
        /// What is replaced.
        centre: Expr<A>,
        /// By what.
        result: Expr<A>,
    },
    /// `centre -> before ... after`.
    Markup {
        /// What is marked.
        centre: Expr<A>,
        /// What is put before it.
        before: Expr<A>,
        /// What is put after it.
        after: Expr<A>,
    },
    /// `[..] -> result`.
    Insert {
        /// What is inserted.
        result: Expr<A>,
    },
}

/// `left _ right`.
#[cycle(expr)]
#[derive(Debug, Drop)]
pub struct Context<A> {
    /// What stands before.
    pub left: Expr<A>,
    /// What stands after.
    pub right: Expr<A>,
}

/// On which sides contexts are read (Karttunen, The Replace Operator, 1995).
#[derive(Clone, Copy, Debug, PartialEq, Eq)]
pub enum Side {
    /// `||`, both on the upper side.
    UpUp,
    /// `//`, the left on the lower side, the right on the upper side.
    LowUp,
    /// `\\`, the left on the upper side, the right on the lower side.
    UpLow,
    /// `\/`, both on the lower side.
    LowLow,
}

/// In which order matches are taken, and which of those at one place goes first (Karttunen, Directed Replacement, 1996).
#[derive(Clone, Copy, Debug, PartialEq, Eq)]
pub enum Way {
    /// `@->`, from the left, the longest.
    LeftLongest,
    /// `@>`, from the left, the shortest.
    LeftShortest,
    /// `->@`, from the right, the longest.
    RightLongest,
    /// `>@`, from the right, the shortest.
    RightShortest,
}

/// A definition of an xfst file.
#[derive(Debug, Drop)]
pub struct Define<A> {
    /// The defined name.
    pub name: Text,
    /// The line of the statement's first token, counted from 1.
    pub line: u32,
    /// What the name stands for.
    pub expr: Expr<A>,
}
