use fsa::{Edge, Fsa};
use fsm_base::{Pair, Sym};
use std::alloc::{AllocError, Global};

/// The most symbols on a side of what is told.
const MOST_SYMBOLS: usize = 3;

/// The most edges of a path.
const MOST_EDGES: u32 = 40;

/// The most paths that are looked at.
const MOST_PATHS: u32 = 100_000;

/// A path so far.
#[derive(Debug, Drop)]
struct Path {
    /// Where it has come.
    state: usize,
    /// Its upper side.
    upper: String,
    /// Its lower side.
    lower: String,
    /// How many edges it may still have.
    left: u32,
}

impl Path {
    /// Whether both sides have few symbols.
    fn is_short(&self) -> bool {
        self.upper.chars().count() <= MOST_SYMBOLS && self.lower.chars().count() <= MOST_SYMBOLS
    }
}

/// What a network relates, with few symbols on each side, each once and sorted.
pub fn related(alloc: Global, net: &Fsa<Pair>) -> Result<Vec<String>, AllocError> {
    let mut open = Vec::new(alloc);
    open.push(Path {
        state: 0,
        upper: String::new(alloc),
        lower: String::new(alloc),
        left: MOST_EDGES,
    })?;
    let mut found = Vec::new(alloc);
    for _path in 0..MOST_PATHS {
        let Some(path) = open.pop() else {
            break;
        };
        if path.is_short() && is_final(net, path.state) {
            found.push(format!(in alloc; "{}:{}", path.upper.as_str(), path.lower.as_str())?)?;
        }
        add_longer(alloc, &mut open, &path, net.edges())?;
    }
    found.sort()?;
    found.dedup();
    Ok(found)
}

/// Whether a state is there and final.
fn is_final(net: &Fsa<Pair>, state: usize) -> bool {
    state < net.states() && net.finals()[state]
}

/// Adds the path with each edge behind it.
fn add_longer(
    alloc: Global,
    open: &mut Vec<Path>,
    path: &Path,
    edges: &[Edge<Pair>],
) -> Result<(), AllocError> {
    let Some(left) = path.left.checked_sub(1) else {
        return Ok(());
    };
    for edge in edges {
        if edge.from == path.state && path.is_short() {
            let (up, low) = match edge.letter {
                Some(pair) => (pair.up, pair.low),
                None => (None, None),
            };
            open.push(Path {
                state: edge.to,
                upper: longer(alloc, path.upper.as_str(), up)?,
                lower: longer(alloc, path.lower.as_str(), low)?,
                left,
            })?;
        }
    }
    Ok(())
}

/// A side with a symbol behind it.
fn longer(alloc: Global, side: &str, symbol: Option<Sym>) -> Result<String, AllocError> {
    let mut longer = String::from_str(alloc, side)?;
    if let Some(symbol) = symbol {
        longer.push(char::from_u32(symbol.0).unwrap_or('?'))?;
    }
    Ok(longer)
}
