ghost use Rattle.std.specs.Prelude.{◌≡◌};
ghost use Rattle.regex_ast.specs.Terms.{term};
ghost use Rattle.expr_kinds.specs.Atoms.{are_one_symbol};
ghost use Rattle.expr_kinds.specs.Kinds.{are_alike, half};

use regex_ast::{Atom, Expr};

/// A side of a colon without its square brackets.
#[derive(Clone, Copy, Debug)]
pub enum Half<A> {
    /// The empty string.
    Nothing,
    /// One symbol or name.
    One(A),
    /// Anything else.
    Longer,
}

/// A side of a colon, by its expression.
fn half_of(expr: &Expr<Atom>) -> Half<Atom>
    ensures { result ≡ half (term expr.now) }
{
    match expr {
        Expr::Empty => Half::Nothing,
        Expr::Atom(atom) => Half::One(*atom),
        Expr::Letters(letters) => match letters.as_slice() {
            [letter] => Half::One(*letter),
            _ => Half::Longer,
        },
        Expr::Group(inner) => half_of(inner),
        _ => Half::Longer,
    }
}

/// Whether two leaves are the same symbol; a name is none.
fn are_one_symbol(first: Atom, second: Atom) -> bool
    ensures { result ≡ are_one_symbol first second }
{
    match (first, second) {
        (Atom::Sym(first), Atom::Sym(second)) => first.0 == second.0,
        _ => false,
    }
}

/// Whether both sides of a colon are empty, or the same symbol. A name is no symbol, whatever it stands for.
pub fn are_alike(upper: &Expr<Atom>, lower: &Expr<Atom>) -> bool
    ensures { result ≡ are_alike are_one_symbol (half (term upper.now)) (half (term lower.now)) }
{
    match (half_of(upper), half_of(lower)) {
        (Half::Nothing, Half::Nothing) => true,
        (Half::One(upper), Half::One(lower)) => are_one_symbol(upper, lower),
        _ => false,
    }
}
