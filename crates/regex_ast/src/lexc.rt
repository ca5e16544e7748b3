ghost use Rattle.std.specs.Prelude.{◌≡◌};

use crate::expr::Expr;
use fsm_base::Text;
use std::alloc::AllocError;

/// A lexicon of a lexc file, with the lexicons that its entries go on in (Beesley and Karttunen, Finite
/// State Morphology, 2003, chapter 4). The declared multicharacter symbols are a first lexicon with the
/// empty name and line 0, one entry each, which belongs to no path.
#[derive(Debug, Drop)]
pub struct Lexicon<A> {
    /// The lexicon's name.
    pub name: Text,
    /// The line of its declaration, counted from 1.
    pub line: u32,
    /// Its entries, in the order of the file.
    pub entries: Vec<Entry<A>>,
}

/// An entry of a lexicon.
#[derive(Debug, Drop)]
pub struct Entry<A> {
    /// The line of its first token, counted from 1.
    pub line: u32,
    /// What it adds to a path.
    pub form: Form<A>,
    /// The lexicon that the path goes on in; `None` is `#`, its end.
    pub next: Option<Text>,
}

/// What an entry adds to the two sides of a path.
#[derive(Debug, Drop)]
pub enum Form<A> {
    /// A list of pieces on each side.
    Sides {
        /// The upper, lexical side.
        upper: Vec<Piece<A>>,
        /// The lower, surface side.
        lower: Vec<Piece<A>>,
    },
    /// Any pair of an expression's relation.
    Pairs(Expr<A>),
}

/// A piece of a side.
#[derive(Debug, Drop)]
pub enum Piece<A> {
    /// A symbol.
    Symbol(A),
    /// A flag diacritic.
    Flag(FlagOp),
}

/// A flag diacritic `@kind.feature.value@` or `@kind.feature@` (Beesley and Karttunen, Finite State
/// Morphology, 2003, chapter 7).
#[derive(Debug, Drop)]
pub struct FlagOp {
    /// What it does.
    pub kind: FlagKind,
    /// The feature that it is about.
    pub feature: Text,
    /// The value, where it has one.
    pub value: Option<Text>,
}

/// A clone shares the texts.
impl Clone for FlagOp {
    ghost is_clone = { λ source flag. flag ≡ source };

    fn clone(&self) -> Result<FlagOp, AllocError> {
        Ok(FlagOp {
            kind: self.kind,
            feature: self.feature.clone()?,
            value: self.value.clone()?,
        })
    }
}

/// What a flag diacritic does.
#[derive(Clone, Copy, Debug, PartialEq, Eq)]
pub enum FlagKind {
    /// Sets the feature to the value.
    P,
    /// Sets the feature negatively: bars it from the value.
    N,
    /// Makes the feature neutral.
    C,
    /// Requires the value, or any value.
    R,
    /// Bars the value, or any value.
    D,
    /// Unifies the feature with the value.
    U,
}
