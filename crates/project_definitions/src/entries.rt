ghost use Rattle.std.specs.Prelude.{◌≡◌, ◌↔◌, All, IsTrue, map, sum_by};
ghost use Rattle.expr_kinds.specs.Atoms.{is_known_at, is_symbol, leaves_at, weights_at};
ghost use Rattle.expr_kinds.specs.Forms.{capped};
ghost use Rattle.project_sources.specs.Built.{FormIsBuiltBy, LexiconIsBuiltBy, PieceIsBuiltBy};
ghost use Rattle.project_definitions.specs.Bodies.{FormFitsBy, LexiconFitsBy, form_weight, lexicon_weight};
ghost use Rattle.name_resolution.specs.Plain.{entry_of, form_of, lexicon_of, piece_of};

use expr_kinds::{Form, form_of};
use regex_ast::{Atom, Entry, Lexicon, Piece};

/// Whether a leaf is a symbol.
fn is_symbol(leaf: &Atom) -> bool
    ensures { result ≡ is_symbol leaf.now }
{
    match leaf {
        Atom::Sym(_) => true,
        Atom::Name(_) => false,
    }
}

/// Whether a piece of a side is a symbol, or a flag.
fn is_built(piece: &Piece<Atom>) -> bool
    ensures { IsTrue result ↔ PieceIsBuiltBy is_symbol (piece_of piece.now) }
{
    match piece {
        Piece::Symbol(leaf) => is_symbol(leaf),
        Piece::Flag(_) => true,
    }
}

/// Whether each letter of a side is a symbol.
fn are_symbols(side: &[Piece<Atom>]) -> bool
    ensures { IsTrue result ↔ All (PieceIsBuiltBy is_symbol) (map piece_of side.now) }
{
    'pieces: for piece in side {
        if !is_built(piece) {
            return false;
        }
    }
    true
}

/// What an entry of a lexicon is, where names have these forms.
fn form_of_entry(names: &[Form], entry: &Entry<Atom>) -> Form
    ensures fits { IsTrue result.fits ↔ FormFitsBy (leaves_at names.now) (form_of entry.now.form) }
    ensures weight { result.weight ≡ capped (form_weight (weights_at names.now) (form_of entry.now.form)) }
    ensures built { IsTrue result.built ↔ FormIsBuiltBy (is_known_at names.now) is_symbol (form_of entry.now.form) }
{
    match &entry.form {
        regex_ast::Form::Sides { upper, lower } => Form::leaf(upper.len())
            .heavier(lower.len())
            .heavier(1)
            .built_if(are_symbols(upper) && are_symbols(lower)),
        regex_ast::Form::Pairs(expr) => form_of(names, expr).heavier(1),
    }
}

/// What the entries of a lexicon are together, where names have these forms.
fn form_of_entries(names: &[Form], entries: &[Entry<Atom>]) -> Form
    ensures fits { IsTrue result.fits ↔ All (λ e. FormFitsBy (leaves_at names.now) e.form) (map entry_of entries.now) }
    ensures weight { result.weight ≡ capped (sum_by (λ e. form_weight (weights_at names.now) e.form) (map entry_of entries.now)) }
    ensures built { IsTrue result.built ↔ All (λ e. FormIsBuiltBy (is_known_at names.now) is_symbol e.form) (map entry_of entries.now) }
{
    let mut form = Form::leaf(0);
    'entries: for entry in entries {
        form = form.beside(form_of_entry(names, entry));
    }
    form
}

/// What a lexicon is, where names have these forms: the declared symbols, which are a lexicon without name, weigh nothing.
fn form_of_lexicon(names: &[Form], lexicon: &Lexicon<Atom>) -> Form
    ensures fits { IsTrue result.fits ↔ LexiconFitsBy (leaves_at names.now) (lexicon_of lexicon.now) }
    ensures weight { result.weight ≡ capped (lexicon_weight (weights_at names.now) (lexicon_of lexicon.now)) }
    ensures built { IsTrue result.built ↔ LexiconIsBuiltBy (is_known_at names.now) is_symbol (lexicon_of lexicon.now) }
{
    let form = form_of_entries(names, &lexicon.entries);
    if lexicon.name.as_str().is_empty() {
        Form { weight: 0, ..form }
    } else {
        form
    }
}

/// What lexicons are together, where names have these forms.
pub fn form_of_lexicons(names: &[Form], lexicons: &[Lexicon<Atom>]) -> Form
    ensures fits { IsTrue result.fits ↔ All (LexiconFitsBy (leaves_at names.now)) (map lexicon_of lexicons.now) }
    ensures weight { result.weight ≡ capped (sum_by (lexicon_weight (weights_at names.now)) (map lexicon_of lexicons.now)) }
    ensures built { IsTrue result.built ↔ All (LexiconIsBuiltBy (is_known_at names.now) is_symbol) (map lexicon_of lexicons.now) }
{
    let mut form = Form::leaf(0);
    'lexicons: for lexicon in lexicons {
        form = form.beside(form_of_lexicon(names, lexicon));
    }
    form
}
