ghost use Rattle.std.specs.Prelude.{◌≡◌, IfOk};
ghost use Rattle.std.specs.Arc.{arc_value};
ghost use Rattle.project_store.specs.Projects.{IsRead};

use fsm_base::Text;
use project_sources::Sources;
use project_store::Project;
use project_versions::Version;
use regex_ast::Fault;
use saved_networks::{SavedNetwork, SavedWhy};
use std::alloc::{AllocError, Global};
use std::marker::Model;
use std::sync::Arc;

/// What a project that C holds has so far.
#[derive(Drop)]
pub enum Held {
    /// Files that were put.
    Gathered(Sources),
    /// The first fault of the files that were put.
    Faulty(Fault),
    /// The project that they say.
    Open(Opened),
    /// The network of an AT&T text, which one of them was.
    Saved(SavedOwner),
    /// The first fault of the one that was to be an AT&T text.
    Unreadable(SavedRefusal),
}

/// A project that is open. It may have several owners, which share it. Contracts see its version.
#[derive(Drop)]
pub struct Opened {
    /// Its first version, with a network for each of its names.
    version: Arc<Version>,
    /// The project that its files say, with its alphabet.
    project: Arc<Project>,
}

impl Model for Opened {
    ghost use Rattle.regex_ast.specs.contracts.expr.Atom as atom;
    ghost use Rattle.regex_ast.specs.contracts.expr.Expr as expr;
    ghost use Rattle.regex_ast.specs.contracts.twolc.PairPart as part;
    ghost use Rattle.std.specs.Arc.{arc_value};
    ghost use Rattle.std.specs.Coded.{codes};
    ghost use Rattle.project_store.specs.Projects.{IsRead};
    ghost use Rattle.project_versions.specs.Versions.{VersionView};

    ghost Value = { VersionView };

    ghost coded = { Prim.hlevel (codes, (expr.the_row atom.the_row).coded, (expr.the_row (part.the_row atom.the_row)).coded) };

    ghost view = { λ o. arc_value o.version };

    ghost invariant = { λ o. IsRead (arc_value o.version).files (arc_value o.project) };
}

impl Opened {
    /// A version, with the project of its files.
    pub(crate) fn of(
        alloc: Global,
        version: Version,
        project: Project,
    ) -> Result<Opened, AllocError>
        requires { IsRead version.files project }
        ensures { IfOk result (λ opened. opened ≡ version) }
    {
        let version = Arc::new(alloc, version)?;
        let project = Arc::new(alloc, project)?;
        Ok(Opened { version, project })
    }

    /// Its version.
    pub(crate) fn version(&self) -> &Version
        ensures { result.now ≡ self.now }
    {
        &self.version
    }

    /// The project that the files of its version say.
    pub(crate) fn project(&self) -> &Project
        ensures { IsRead self.now.files result.now }
    {
        &self.project
    }

    /// One more owner of the same. Nothing is copied.
    pub(crate) fn share(&self) -> Result<Opened, AllocError>
        ensures { IfOk result (λ opened. opened ≡ self.now) }
    {
        let version = Arc::try_clone(&self.version)?;
        let project = Arc::try_clone(&self.project)?;
        Ok(Opened { version, project })
    }
}

/// The network of an AT&T text that is open. It may have several owners, which share it. Contracts see the network.
#[derive(Drop)]
pub struct SavedOwner {
    /// The network.
    network: Arc<SavedNetwork>,
}

impl Model for SavedOwner {
    ghost use Rattle.std.specs.Arc.{arc_value};
    ghost use Rattle.saved_networks.specs.Networks.{SavedView};

    ghost Value = { SavedView };

    ghost view = { λ o. arc_value o.network };
}

impl SavedOwner {
    /// The first owner of a network.
    pub(crate) fn of(alloc: Global, network: SavedNetwork) -> Result<SavedOwner, AllocError>
        ensures { IfOk result (λ owner. owner ≡ network) }
    {
        let network = Arc::new(alloc, network)?;
        Ok(SavedOwner { network })
    }

    /// The network.
    pub(crate) fn network(&self) -> &SavedNetwork
        ensures { result.now ≡ self.now }
    {
        &self.network
    }

    /// One more owner of the same. Nothing is copied.
    pub(crate) fn share(&self) -> Result<SavedOwner, AllocError>
        ensures { IfOk result (λ owner. owner ≡ self.now) }
    {
        let network = Arc::try_clone(&self.network)?;
        Ok(SavedOwner { network })
    }
}

/// What is wrong with a file that was to be an AT&T text, and where.
#[derive(Debug, Drop)]
pub struct SavedRefusal {
    /// The file.
    pub file: Text,
    /// The line, counted from 1; 0 is the file as a whole.
    pub line: u32,
    /// The reason.
    pub why: SavedWhy,
}

/// Takes what may go to another thread. It does nothing when it runs.
fn may_cross<T: Send>(_held: &T) {}

impl Held {
    /// That what C holds may go to another thread: this is proved where it is called for a type that may. It does nothing when it runs.
    pub fn crosses(&self) {
        may_cross(self);
    }
}
