ghost use Rattle.std.specs.Prelude.{◌≡◌, ◌<◌, ◌^◌, ◌++◌, ◌∷◌, [], List, Some, IfOk, OnOk, length, slice_get};
ghost use Rattle.lookup.specs.declared.explored.Config.{Config};
ghost use Rattle.lookup.specs.Reached.{AddsSteps, IsNode};

use crate::END;
use fsa::Edge;
use fsm_base::Sym;
use indexmap::IndexSet;
use std::alloc::{AllocError, Global};
use std::marker::Model;

/// How many symbols of a word were read, and the state that was reached.
#[derive(Clone, Copy, Debug, PartialEq, Eq, Hash)]
pub(crate) struct Config {
    pub(crate) place: usize,
    pub(crate) state: usize,
}

/// What was found of the part of a network that a word reaches. Contracts see the configurations, in the order in
/// which they were found, and the edges.
#[derive(Debug, Drop)]
pub(crate) struct Explored {
    configs: IndexSet<Config>,
    edges: Vec<Edge<Sym>>,
}

impl Model for Explored {
    ghost use Rattle.lookup.specs.Reached.{Reached};

    ghost Value = { Reached };

    ghost view = { λ explored. record { configs = explored.configs.keys; edges = explored.edges.items } };
}

impl Explored {
    /// The start alone: nothing was read, and the state is 0.
    pub(crate) fn start(alloc: Global) -> Result<Explored, AllocError>
        ensures { IfOk result (λ explored. explored ≡ record { configs = record { place = 0; state = 0 } ∷ []; edges = [] }) }
    {
        let mut configs = IndexSet::new(alloc);
        configs.insert(Config { place: 0, state: 0 })?;
        Ok(Explored {
            configs,
            edges: Vec::new(alloc),
        })
    }

    /// How many configurations were found.
    pub(crate) fn len(&self) -> usize
        ensures count { result ≡ length self.now.configs }
        ensures small { result < 2 ^ 63 }
    {
        self.configs.len()
    }

    /// The configuration with a number.
    pub(crate) fn config(&self, number: usize) -> Config
        requires { number < length self.now.configs }
        ensures { slice_get self.now.configs number ≡ Some result }
    {
        self.configs[number]
    }

    /// Adds a step from a node to a configuration, or to the end for None. What is left after an Err is not said.
    pub(crate) fn add(
        &mut self,
        from: usize,
        letter: Option<Sym>,
        target: Option<Config>,
    ) -> Result<(), AllocError>
        ensures { OnOk result (AddsSteps (λ l t. (l ≡ letter) × (t ≡ target)) from self.old self.new) }
    {
        let to = node_of(&mut self.configs, target)?;
        self.edges.push(Edge { from, letter, to })?;
        Ok(())
    }

    /// The edges.
    pub(crate) fn into_edges(self) -> Vec<Edge<Sym>>
        ensures { result.items ≡ self.edges }
    {
        self.edges
    }
}

/// The node of a configuration, which is added where it isn't there, or the end for None.
fn node_of(configs: &mut IndexSet<Config>, target: Option<Config>) -> Result<usize, AllocError>
    ensures node { IfOk result (λ node. IsNode configs.new.keys node target) }
    ensures kept { OnOk result ((more : List Config) × (configs.new.keys ≡ configs.old.keys ++ more)) }
{
    let Some(config) = target else {
        return Ok(END);
    };
    let (number, _) = configs.insert_full(config)?;
    let count = configs.len();
    prove!(number < count);
    Ok(number + 1)
}
