ghost use Rattle.std.specs.Prelude.{◌≡◌, ◌↔◌, IfOk, IsTrue, map};
ghost use Rattle.grammar_pairs.specs.Plain.{term_of};
ghost use Rattle.regex_ast.specs.Terms.{term};
ghost use Rattle.body_equality.specs.RenumberedGrammars.{context_alone, renumbered_alone, renumbered_term};
ghost use Rattle.body_equality.specs.Shapes.{no_leaf, shape_of};

use crate::equality::same_expr;
use crate::parts::same_parts;
use crate::renumbering::Renumbering;
use expr_leaves::{LeafMap, leaves, map_leaves};
use fsm_base::Sym;
use regex_ast::{Atom, Context, Expr, PairPart};
use std::alloc::{AllocError, Global};

/// One leaf for all, which leaves the shape of an expression.
#[derive(Clone, Copy)]
struct Shape;

impl LeafMap<PairPart<Atom>, Atom> for Shape {
    ghost image = { λ shape part. no_leaf };

    fn image_of(&self, _alloc: Global, _leaf: &PairPart<Atom>) -> Result<Atom, AllocError> {
        Ok(Atom::Sym(Sym(0)))
    }
}

/// Whether two expressions differ in no more than their leaves.
fn same_shape(
    alloc: Global,
    other: &Expr<PairPart<Atom>>,
    expr: &Expr<PairPart<Atom>>,
) -> Result<bool, AllocError>
    ensures { IfOk result (λ same. IsTrue same ↔ (shape_of (term other.now) ≡ shape_of (term expr.now))) }
{
    let others = map_leaves(alloc, &Shape, other)?;
    let shape = map_leaves(alloc, &Shape, expr)?;
    let unchanged = Renumbering {
        symbols: Vec::new(alloc),
        names: Vec::new(alloc),
    };
    same_expr(alloc, &others, &shape, &unchanged)
}

/// Whether an expression over pairs, renumbered, is another one: it has the same shape, and its leaves are the other's.
pub(crate) fn same_term(
    alloc: Global,
    other: &Expr<PairPart<Atom>>,
    expr: &Expr<PairPart<Atom>>,
    numbers: &Renumbering,
) -> Result<bool, AllocError>
    ensures { IfOk result (λ same. IsTrue same ↔ (term_of other.now ≡ renumbered_term numbers.now expr.now)) }
{
    if !same_shape(alloc, other, expr)? {
        return Ok(false);
    }
    let others = leaves(alloc, other)?;
    let parts = leaves(alloc, expr)?;
    Ok(same_parts(&others, &parts, numbers))
}

/// Whether a context, renumbered, is another one.
fn same_context(
    alloc: Global,
    other: &Context<PairPart<Atom>>,
    context: &Context<PairPart<Atom>>,
    numbers: &Renumbering,
) -> Result<bool, AllocError>
    ensures { IfOk result (λ same. IsTrue same ↔ (context_alone other.now ≡ renumbered_alone numbers.now context.now)) }
{
    if !same_term(alloc, &other.left, &context.left, numbers)? {
        return Ok(false);
    }
    same_term(alloc, &other.right, &context.right, numbers)
}

/// Whether contexts, renumbered, are other ones.
pub(crate) fn same_contexts(
    alloc: Global,
    others: &[Context<PairPart<Atom>>],
    contexts: &[Context<PairPart<Atom>>],
    numbers: &Renumbering,
) -> Result<bool, AllocError>
    ensures { IfOk result (λ same. IsTrue same ↔ (map context_alone others.now ≡ map (renumbered_alone numbers.now) contexts.now)) }
{
    if others.len() != contexts.len() {
        return Ok(false);
    }
    'places: for place in 0..contexts.len() {
        if !same_context(alloc, &others[place], &contexts[place], numbers)? {
            return Ok(false);
        }
    }
    Ok(true)
}
