ghost use Rattle.std.specs.Prelude.{◌≡◌, ◌<◌, ℕ, List, [], All, Contains, IfOk, MatchOption, Some, length, slice_get};
ghost use Rattle.expr_kinds.specs.Atoms.{kind_at};
ghost use Rattle.project_model.specs.Plans.{IsPlan};
ghost use Rattle.project_definitions.specs.declared.definition.Definition.{Definition};
ghost use Rattle.project_model.specs.Stands.{Stands};
ghost use Rattle.project_meaning.specs.Forms.{kind_in};
ghost use Rattle.project_meaning.specs.Projects.{names_of};
ghost use Rattle.project_sources.specs.Laws.{IsSoundProject};
ghost use Rattle.project_sources.specs.Sources.{Said, project_in};
ghost use Rattle.project_store.specs.Loaded.{AreNames, IsLoadedFrom, plan_in};

use fsm_base::{Alphabet, SymbolTable, Text};
use interlinear::GlossTable;
use project_model::{Kind, Plan};
use std::alloc::{AllocError, Global};
use std::marker::Model;

/// A project that is loaded: its plan, and the alphabet of its symbols.
#[derive(Drop)]
pub struct Project {
    /// Its definitions, symbols and glosses.
    plan: Plan,
    /// The symbols of the plan, with their texts.
    alphabet: Alphabet,
}

impl Model for Project {
    ghost use Rattle.regex_ast.specs.contracts.expr.Atom as atom;
    ghost use Rattle.regex_ast.specs.contracts.expr.Expr as expr;
    ghost use Rattle.regex_ast.specs.contracts.twolc.PairPart as part;
    ghost use Rattle.std.specs.Prelude.{◌≡◌};
    ghost use Rattle.std.specs.Coded.{codes};
    ghost use Rattle.fsm_base.specs.Alphabet.{IsAlphabet, symbols_of};
    ghost use Rattle.project_model.specs.Plans.{IsPlan};
    ghost use Rattle.project_store.specs.Loaded.{LoadedView};

    ghost Value = { LoadedView };

    ghost coded = { Prim.hlevel (codes, (expr.the_row atom.the_row).coded, (expr.the_row (part.the_row atom.the_row)).coded) };

    ghost view = { λ p. record { definitions = p.plan.definitions; alphabet = p.alphabet; forms = p.plan.forms; glosses = p.plan.glosses } };

    ghost invariant = { λ p. IsPlan p.plan × IsAlphabet p.alphabet × (symbols_of p.alphabet ≡ p.plan.symbols) };
}

impl Project {
    /// The project of a plan whose symbols stand in the table.
    pub fn of(alloc: Global, plan: Plan, table: &SymbolTable) -> Result<Project, AllocError>
        requires { All (λ sym. sym.0 < length table.now) plan.symbols }
        ensures loaded { (said : Said) → Stands said [] table.now plan → IsSoundProject (project_in said) → IfOk result (IsLoadedFrom said) }
        ensures glosses { IfOk result (λ project. project.glosses ≡ plan.glosses) }
    {
        let alphabet = Alphabet::of(alloc, table, plan.symbols())?;
        Ok(Project { plan, alphabet })
    }

    /// The alphabet of its symbols.
    pub fn alphabet(&self) -> &Alphabet
        ensures { result.now ≡ self.now.alphabet }
    {
        &self.alphabet
    }

    /// Its definitions, and the order in which their networks are built.
    pub fn plan(&self) -> &Plan
        ensures definitions { result.now.definitions ≡ self.now.definitions }
        ensures forms { result.now.forms ≡ self.now.forms }
        ensures formed { IsPlan (plan_in self.now) }
    {
        &self.plan
    }

    /// The glosses of its files.
    pub fn glosses(&self) -> &GlossTable
        ensures { result.now ≡ self.now.glosses }
    {
        self.plan.glosses()
    }

    /// The place of the definition of a name, counted from 0, or `None` where the project doesn't define the name.
    pub fn find(&self, name: &str) -> Option<usize>
        ensures { MatchOption result ((d : Definition) → Contains self.now.definitions d → d.name ≡ name.now → ⊥) (λ place. (d : Definition) × (slice_get self.now.definitions place ≡ Some d) × (d.name ≡ name.now)) }
    {
        let all = self.plan.definitions();
        'definitions: for (place, definition) in all.iter().enumerate() {
            if definition.name.as_str() == name {
                return Some(place);
            }
        }
        None
    }

    /// Whether the definition at a place is a language or a relation, by its form.
    pub fn kind_at(&self, place: usize) -> Kind
        requires { place < length self.now.definitions }
        ensures form { result ≡ kind_at self.now.forms place }
        ensures kind { (said : Said) (name : List ℕ) → IsLoadedFrom said self.now → slice_get (names_of said.written) place ≡ Some name → result ≡ kind_in (project_in said) name }
    {
        // In this order each definition has its form by those before it.
        let _ = self.plan.order();
        self.plan.forms()[place].kind
    }

    /// The names of the project in the order of their bytes.
    pub fn names(&self, alloc: Global) -> Result<Vec<Text>, AllocError>
        ensures { (said : Said) → IsLoadedFrom said self.now → IfOk result (λ names. AreNames (project_in said) names.items) }
    {
        let mut names = Vec::new(alloc);
        'definitions: for definition in self.plan.definitions() {
            names.push(definition.name.clone()?)?;
        }
        names.sort()?;
        Ok(names)
    }
}
