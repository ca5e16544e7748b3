use fsm_base::{Bound, Sym};
use lang_algebra::Lang;
pub use regex_ast::Side;

/// A mapping: each word of a centre is replaced by each word of a result.
#[derive(Debug, Drop)]
pub struct LangMap {
    /// What is replaced.
    pub centre: Lang<Sym>,
    /// What it is replaced by; or, where `after` is there, what is put before it.
    pub result: Lang<Sym>,
    /// What is put behind the centre, where the mapping is markup and keeps it.
    pub after: Option<Lang<Sym>>,
}

/// A context. Its parts may speak of the edge of the word.
#[derive(Debug, Drop)]
pub struct LangContext {
    /// What stands before the place.
    pub left: Lang<Bound<Sym>>,
    /// What stands behind it.
    pub right: Lang<Bound<Sym>>,
}

/// Mappings that hold in the same contexts, or everywhere, where there is none.
#[derive(Debug, Drop)]
pub struct LangGroup {
    /// The mappings.
    pub maps: Vec<LangMap>,
    /// On which sides the contexts are read.
    pub side: Side,
    /// The contexts, of which one has to hold.
    pub contexts: Vec<LangContext>,
}
