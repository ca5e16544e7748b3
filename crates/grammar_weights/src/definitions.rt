ghost use Rattle.std.specs.Prelude.{◌≡◌, ◌∷◌, IfOk, List, OnOk, map, reverse};
ghost use Rattle.regex_ast.specs.declared.expr.Atom.{Atom as Leaf};
ghost use Rattle.expr_kinds.specs.Forms.{capped};
ghost use Rattle.expr_kinds.specs.Weights.{weight_of};
ghost use Rattle.project_meaning.specs.Trees.{PairDefinition};
ghost use Rattle.grammar_pairs.specs.Plain.{definition_of, term_of};
ghost use Rattle.grammar_weights.specs.Weighed.{IsWeighed, leaf_at, stands_for};
ghost use Rattle.grammar_weights.specs.Weights.{part_weight};

use expr_kinds::{Form, form_of};
use expr_leaves::{LeafMap, map_leaves};
use fsm_base::Sym;
use grammar_pairs::NameTable;
use regex_ast::{Atom, Expr, PairDefine, PairPart};
use std::alloc::{AllocError, Global};

/// What definitions of a grammar weigh, each over those above it.
#[derive(Drop)]
pub(crate) struct Weighed {
    /// The place of the last definition of each name.
    pub(crate) places: NameTable<u32>,
    /// What the definition at each place weighs.
    pub(crate) forms: Vec<Form>,
}

/// The leaf that stands for a name: that of its place, or a symbol.
fn leaf_at(place: Option<u32>) -> Atom
    ensures { result ≡ leaf_at place }
{
    match place {
        Some(place) => Atom::Name(place),
        None => Atom::Sym(Sym(0)),
    }
}

impl LeafMap<PairPart<Atom>, Atom> for Weighed {
    ghost image = { λ weighed. stands_for weighed.places };

    fn image_of(&self, _alloc: Global, leaf: &PairPart<Atom>) -> Result<Atom, AllocError> {
        match leaf {
            PairPart::Atom(_) => Ok(Atom::Sym(Sym(0))),
            PairPart::Named(name) => Ok(leaf_at(self.places.get(name.as_str()).copied())),
        }
    }
}

/// What an expression over pairs weighs below these definitions.
pub(crate) fn weight_in(
    alloc: Global,
    weighed: &Weighed,
    expr: &Expr<PairPart<Atom>>,
) -> Result<usize, AllocError>
    ensures { IfOk result (λ weight. (above : List (PairDefinition Leaf)) → IsWeighed weighed.now above → weight ≡ capped (weight_of (part_weight above) (term_of expr.now))) }
{
    let places = map_leaves(alloc, weighed, expr)?;
    Ok(form_of(&weighed.forms, &places).weight)
}

/// Puts a definition below the others.
fn add_definition(
    alloc: Global,
    definition: &PairDefine<Atom>,
    weighed: &mut Weighed,
) -> Result<(), AllocError>
    ensures { OnOk result ((above : List (PairDefinition Leaf)) → IsWeighed weighed.old above → IsWeighed weighed.new (definition_of definition.now ∷ above)) }
{
    let weight = weight_in(alloc, weighed, &definition.expr)?;
    let Ok(place) = u32::try_from(weighed.forms.len()) else {
        return Err(AllocError);
    };
    weighed.forms.push(Form::leaf(weight))?;
    weighed.places.put(definition.name.as_str(), place)
}

/// What the definitions of a grammar weigh. Of 2^32 or more there is no memory for the places.
pub(crate) fn weigh(alloc: Global, definitions: &[PairDefine<Atom>]) -> Result<Weighed, AllocError>
    ensures { IfOk result (λ weighed. IsWeighed weighed (reverse (map definition_of definitions.now))) }
{
    let mut weighed = Weighed {
        places: NameTable::new(alloc),
        forms: Vec::new(alloc),
    };
    'definitions: for definition in definitions {
        add_definition(alloc, definition, &mut weighed)?;
    }
    Ok(weighed)
}
