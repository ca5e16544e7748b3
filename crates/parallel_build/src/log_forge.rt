ghost use Rattle.std.specs.Prelude.{◌≡◌, []};
ghost use Rattle.parallel_build.specs.Forges.{stock};

use crate::forge::{Forge, Permit};
use crate::issue::Issue;
use std::alloc::{AllocError, Global};
use std::marker::Model;

/// A permit of a [`LogForge`], which alone makes one.
#[derive(Drop)]
pub struct LogPermit {
    name: u32,
    version: u64,
}

impl Permit for LogPermit {
    ghost name_of = { λ permit. permit.name };

    ghost version_of = { λ permit. permit.version };

    fn name(&self) -> u32 {
        self.name
    }

    fn version(&self) -> u64 {
        self.version
    }
}

/// A forge that keeps its issues in a list.
#[derive(Drop)]
pub struct LogForge {
    /// The issues. Its room is what is left of the list's capacity.
    issues: Vec<Issue>,
}

impl Model for LogForge {
    ghost use Rattle.std.specs.Prelude.{◌-◌, vec_capacity, vec_len};
    ghost use Rattle.parallel_build.specs.Forges.{Stock};

    ghost Value = { Stock };

    ghost view = { λ f. record { room = vec_capacity f.issues - vec_len f.issues; issues = f.issues.items } };
}

impl LogForge {
    /// A forge that has made no permit.
    pub fn new(alloc: Global) -> LogForge
        ensures { result ≡ stock 0 [] }
    {
        LogForge {
            issues: Vec::new(alloc),
        }
    }
}

impl Forge for LogForge {
    type Permit = LogPermit;

    ghost room = { λ f. f.room };

    ghost issues = { λ f. f.issues };

    fn reserve(&mut self, more: usize) -> Result<(), AllocError> {
        self.issues.reserve(more)
    }

    fn permit(&mut self, name: u32, version: u64) -> LogPermit {
        self.issues.push_reserved(Issue { name, version });
        LogPermit { name, version }
    }

    fn issued(&self) -> &[Issue] {
        &self.issues
    }
}
