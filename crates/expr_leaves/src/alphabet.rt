ghost use Rattle.std.specs.Prelude.{◌≡◌, ◌∷◌, [], map};
ghost use Rattle.regex_ast.specs.Terms.{term, terms_of, links_of, steps_by};
ghost use Rattle.expr_leaves.specs.Alphabet.{uses_alphabet, one_uses_alphabet, link_uses_alphabet, step_uses_alphabet};

use regex_ast::{Expr, Link, Step};

/// Whether one of `?`, `\`, `~`, `$`, `=>` and replacement, directed or not, stands in an expression. Without them it means the same over
/// every alphabet.
#[cycle(walk)]
pub fn uses_alphabet<A>(expr: &Expr<A>) -> bool
    ensures { result ≡ uses_alphabet (term expr.now) }
{
    match expr {
        Expr::Empty | Expr::Edge | Expr::Atom(_) | Expr::Letters(_) => false,
        Expr::Any
        | Expr::NotOne(_, _)
        | Expr::Prefixed(_, _)
        | Expr::Only(_, _)
        | Expr::Rules(_)
        | Expr::Directed(_) => true,
        Expr::Group(inner) => uses_alphabet(inner),
        Expr::Maybe(inner) => uses_alphabet(inner),
        Expr::Suffixed(inner, _) => uses_alphabet(inner),
        Expr::Cross(upper, lower) => uses_alphabet(upper) || uses_alphabet(lower),
        Expr::Ignore(operands) => one_uses(operands),
        Expr::Concat(operands) => one_uses(operands),
        Expr::Chain(first, links) => uses_alphabet(first) || link_uses(links),
        Expr::Steps(first, steps) => uses_alphabet(first) || step_uses(steps),
    }
}

/// Whether one of these uses the alphabet.
#[cycle(walk)]
fn one_uses<A>(operands: &[Expr<A>]) -> bool
    ensures { result ≡ one_uses_alphabet (terms_of (map term operands.now)) }
{
    'operands: for operand in operands {
        if uses_alphabet(operand) {
            return true;
        }
    }
    false
}

/// Whether an operand of a row of `|`, `&` and `-` does.
#[cycle(walk)]
fn link_uses<A>(links: &[Link<A>]) -> bool
    ensures { result ≡ link_uses_alphabet (links_of links.now) }
{
    'links: for link in links {
        if operand_uses(link) {
            return true;
        }
    }
    false
}

/// Whether this operand does.
#[cycle(walk)]
fn operand_uses<A>(link: &Link<A>) -> bool
    ensures { result ≡ link_uses_alphabet (links_of (link.now ∷ [])) }
{
    match link {
        Link::Or(operand) | Link::And(operand) | Link::Less(operand) => uses_alphabet(operand),
    }
}

/// Whether an operand of a row of `.x.` and `.o.` does.
#[cycle(walk)]
fn step_uses<A>(steps: &[Step<A>]) -> bool
    ensures { result ≡ step_uses_alphabet (steps_by steps.now) }
{
    'steps: for step in steps {
        if next_uses(step) {
            return true;
        }
    }
    false
}

/// Whether this operand does.
#[cycle(walk)]
fn next_uses<A>(step: &Step<A>) -> bool
    ensures { result ≡ step_uses_alphabet (steps_by (step.now ∷ [])) }
{
    match step {
        Step::CrossWith(operand) | Step::Then(operand) => uses_alphabet(operand),
    }
}
