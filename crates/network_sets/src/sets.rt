ghost use Rattle.std.specs.Prelude.{◌↔◌, IfOk, List};
ghost use Rattle.fsm_base.specs.declared.letters.Sym.{Sym};
ghost use Rattle.fsm_base.specs.declared.letters.Bound.{Bound};
ghost use Rattle.word_relations.specs.Words.{IsDistinct};
ghost use Rattle.fsa.specs.Language.{Accepts};
ghost use Rattle.lang_algebra.specs.Languages.{IsLang};
ghost use Rattle.word_relations.specs.Operations.{IsIgnoring, IsOneLetter};
ghost use Rattle.regex_ast.specs.declared.expr.Prefix.{Prefix};
ghost use Rattle.expr_meaning.specs.Operators.{inner, IsPrefixed, WithEdge};
ghost use Rattle.network_algebra.specs.Networks.{UsesOnly, all_letters};

use fsa::Fsa;
use fsm_base::{Bound, Sym};
use lang_algebra::Lang;
use network_algebra::{every_letter, inner_letters, inside, with_edge};
use regex_ast::Prefix;
use std::alloc::{AllocError, Global};

/// A language over the edge and the symbols of an alphabet.
pub fn language(
    alloc: Global,
    symbols: &[Sym],
    a: &Fsa<Bound<Sym>>,
) -> Result<Lang<Bound<Sym>>, AllocError>
    requires distinct { IsDistinct symbols.now }
    requires only { UsesOnly (all_letters symbols.now) a.now }
    ensures { IfOk result (IsLang (all_letters symbols.now) (Accepts a.now)) }
{
    let letters = every_letter(alloc, symbols)?;
    Lang::of(alloc, &letters, a)
}

/// The words of a language that are without the edge, over the symbols of an alphabet.
fn inner_language(
    alloc: Global,
    symbols: &[Sym],
    a: &Fsa<Bound<Sym>>,
) -> Result<Lang<Bound<Sym>>, AllocError>
    requires distinct { IsDistinct symbols.now }
    requires only { UsesOnly (all_letters symbols.now) a.now }
    ensures { IfOk result (IsLang (inner symbols.now) (WithEdge (λ u. Accepts a.now (inner u)))) }
{
    let letters = inner_letters(alloc, symbols)?;
    let words = with_edge(alloc, &inside(alloc, a)?)?;
    Lang::of(alloc, &letters, &words)
}

/// The words of both languages.
pub fn both(
    alloc: Global,
    symbols: &[Sym],
    a: &Fsa<Bound<Sym>>,
    b: &Fsa<Bound<Sym>>,
) -> Result<Fsa<Bound<Sym>>, AllocError>
    requires distinct { IsDistinct symbols.now }
    requires first { UsesOnly (all_letters symbols.now) a.now }
    requires second { UsesOnly (all_letters symbols.now) b.now }
    ensures letters { IfOk result (UsesOnly (all_letters symbols.now)) }
    ensures words { IfOk result (λ m. (w : List (Bound Sym)) → Accepts m w ↔ (Accepts a.now w × Accepts b.now w)) }
{
    let first = language(alloc, symbols, a)?;
    let second = language(alloc, symbols, b)?;
    first.both(alloc, &second)?.to_fsa(alloc)
}

/// The words of one language that aren't in another.
pub fn minus(
    alloc: Global,
    symbols: &[Sym],
    a: &Fsa<Bound<Sym>>,
    b: &Fsa<Bound<Sym>>,
) -> Result<Fsa<Bound<Sym>>, AllocError>
    requires distinct { IsDistinct symbols.now }
    requires first { UsesOnly (all_letters symbols.now) a.now }
    requires second { UsesOnly (all_letters symbols.now) b.now }
    ensures letters { IfOk result (UsesOnly (all_letters symbols.now)) }
    ensures words { IfOk result (λ m. (w : List (Bound Sym)) → Accepts m w ↔ (Accepts a.now w × ¬ Accepts b.now w)) }
{
    let first = language(alloc, symbols, a)?;
    let second = language(alloc, symbols, b)?;
    first.minus(alloc, &second)?.to_fsa(alloc)
}

/// The words of one language with words of another put in.
pub fn ignore(
    alloc: Global,
    symbols: &[Sym],
    a: &Fsa<Bound<Sym>>,
    b: &Fsa<Bound<Sym>>,
) -> Result<Fsa<Bound<Sym>>, AllocError>
    requires distinct { IsDistinct symbols.now }
    requires first { UsesOnly (all_letters symbols.now) a.now }
    requires second { UsesOnly (all_letters symbols.now) b.now }
    ensures letters { IfOk result (UsesOnly (all_letters symbols.now)) }
    ensures words { IfOk result (λ m. (w : List (Bound Sym)) → Accepts m w ↔ IsIgnoring (Accepts a.now) (Accepts b.now) w) }
{
    let mixed = fsa_rational::ignore(alloc, a, b)?;
    language(alloc, symbols, &mixed)?.to_fsa(alloc)
}

/// The words over an alphabet that aren't in a language, or that have a part in it.
pub fn apply_prefix(
    alloc: Global,
    symbols: &[Sym],
    prefix: Prefix,
    a: &Fsa<Bound<Sym>>,
) -> Result<Fsa<Bound<Sym>>, AllocError>
    requires distinct { IsDistinct symbols.now }
    requires only { UsesOnly (all_letters symbols.now) a.now }
    ensures letters { IfOk result (UsesOnly (all_letters symbols.now)) }
    ensures words { IfOk result (λ m. (w : List (Bound Sym)) → Accepts m w ↔ IsPrefixed symbols.now prefix (Accepts a.now) w) }
{
    let operand = inner_language(alloc, symbols, a)?;
    match prefix {
        Prefix::Not => operand.complement(alloc)?.to_fsa(alloc),
        Prefix::Contains => operand.contains(alloc)?.to_fsa(alloc),
    }
}

/// The words of one symbol of an alphabet that aren't in a language.
pub fn not_one(
    alloc: Global,
    symbols: &[Sym],
    a: &Fsa<Bound<Sym>>,
) -> Result<Fsa<Bound<Sym>>, AllocError>
    requires distinct { IsDistinct symbols.now }
    requires only { UsesOnly (all_letters symbols.now) a.now }
    ensures letters { IfOk result (UsesOnly (all_letters symbols.now)) }
    ensures words { IfOk result (λ m. (w : List (Bound Sym)) → Accepts m w ↔ (IsOneLetter (inner symbols.now) w × ¬ Accepts a.now w)) }
{
    let operand = inner_language(alloc, symbols, a)?;
    operand.not_one(alloc)?.to_fsa(alloc)
}
