ghost use Rattle.std.specs.Prelude.{◌≡◌, ◌↔◌, IsTrue};
ghost use Rattle.body_equality.specs.Renumbered.{number_at, renumbered};

use regex_ast::Atom;

/// Which numbers the symbols and the names of one project have in another one.
#[derive(Drop)]
pub struct Renumbering {
    /// For each symbol, by its number, its number in the other project.
    pub symbols: Vec<usize>,
    /// For each name, by its place, its place in the other project.
    pub names: Vec<usize>,
}

/// The number that stands at a place, or the place itself where nothing stands there.
fn number_at(numbers: &[usize], place: u32) -> usize
    ensures { result ≡ number_at numbers.now place }
{
    match numbers.get(place as usize) {
        Some(number) => *number,
        None => place as usize,
    }
}

impl Renumbering {
    /// Whether a leaf, renumbered, is a leaf of the other project.
    pub fn same_leaf(&self, other: Atom, leaf: Atom) -> bool
        ensures { IsTrue result ↔ (other ≡ renumbered self.now leaf) }
    {
        match (other, leaf) {
            (Atom::Sym(other), Atom::Sym(symbol)) => {
                other.0 as usize == number_at(&self.symbols, symbol.0)
            }
            (Atom::Name(other), Atom::Name(name)) => {
                other as usize == number_at(&self.names, name)
            }
            _ => false,
        }
    }
}
