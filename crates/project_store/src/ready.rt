use crate::project::Project;
use crate::shared::Shared;
use std::marker::Model;

/// A project without an empty centre, with the networks that were built to see that. Contracts see the project.
#[derive(Drop)]
pub struct Ready {
    /// The project.
    project: Project,
    /// The networks of the definitions with centres, and of those to which these refer, each at its place.
    built: Vec<Option<Shared>>,
}

impl Model for Ready {
    ghost use Rattle.regex_ast.specs.contracts.expr.Atom as atom;
    ghost use Rattle.regex_ast.specs.contracts.expr.Expr as expr;
    ghost use Rattle.regex_ast.specs.contracts.twolc.PairPart as part;
    ghost use Rattle.std.specs.Coded.{codes};
    ghost use Rattle.project_store.specs.Centres.{CentresAreBuilt};
    ghost use Rattle.project_store.specs.Loaded.{LoadedView};

    ghost Value = { LoadedView };

    ghost coded = { Prim.hlevel (codes, (expr.the_row atom.the_row).coded, (expr.the_row (part.the_row atom.the_row)).coded) };

    ghost view = { λ r. r.project };

    ghost invariant = { λ r. CentresAreBuilt r.project r.built.items };
}

impl Ready {
    ghost use Rattle.std.specs.Prelude.{◌≡◌};
    ghost use Rattle.project_store.specs.Centres.{CentresAreBuilt};

    /// The project with its networks.
    pub fn of(project: Project, built: Vec<Option<Shared>>) -> Ready
        requires { CentresAreBuilt project built.items }
        ensures { result ≡ project }
    {
        Ready { project, built }
    }

    /// The project.
    pub fn project(&self) -> &Project
        ensures { result.now ≡ self.now }
    {
        &self.project
    }

    /// The project and the networks.
    pub fn into_parts(self) -> (Project, Vec<Option<Shared>>)
        ensures project { result.0 ≡ self }
        ensures built { CentresAreBuilt result.0 result.1.items }
    {
        let Ready { project, built } = self;
        (project, built)
    }
}
