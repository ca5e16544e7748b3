ghost use Rattle.std.specs.Prelude.{◌≡◌, ◌<◌, ◌-◌, ◌^◌, length, IfOk, IfSome};
ghost use Rattle.std.specs.Option.{option_map};
ghost use Rattle.lookup.specs.Answering.{IsOverAlphabet};
ghost use Rattle.interlinear.specs.Replies.{GlossesText};
ghost use Rattle.project_meaning.specs.Projects.{Project as Meant};
ghost use Rattle.reply_meaning.specs.Replies.{RepliesToWord};
ghost use Rattle.project_sources.specs.Sources.{Said, project_in};
ghost use Rattle.project_store.specs.Centres.{CentresAreBuilt};
ghost use Rattle.project_store.specs.Loaded.{IsLoadedFrom};
ghost use Rattle.project_store.specs.Networks.{Shows, ShowsNet};

use crate::answers::reply_in;
use crate::building::network_at;
use crate::glosses::gloss_in;
use crate::project::Project;
use crate::ready::Ready;
use crate::shared::Shared;
use fsm_base::Text;
use lookup_answers::Direction;
use network_build::Compiled;
use reply_text::no_net;
use std::alloc::{AllocError, Global};
use std::marker::Model;

/// A name that is looked up in, and its network over the symbols of a project, if the project defines the name.
#[derive(Drop)]
pub struct Network {
    /// The project.
    project: Project,
    /// The name, in Normalization Form C.
    name: Text,
    /// The network of its definition; none where the project has no such name.
    compiled: Option<Compiled>,
}

impl Model for Network {
    ghost use Rattle.std.specs.Prelude.{IfSome};
    ghost use Rattle.std.specs.Option.{option_map};
    ghost use Rattle.lookup.specs.Answering.{IsOverAlphabet};
    ghost use Rattle.project_store.specs.Networks.{NetworkView};

    ghost Value = { NetworkView };

    ghost view = { λ n. record { alphabet = n.project.alphabet; name = n.name; net = option_map (λ c. c.net) n.compiled; glosses = n.project.glosses } };

    ghost invariant = { λ n. IfSome n.compiled (λ c. IsOverAlphabet n.project.alphabet c.net) };
}

/// The network of a name, ready for look-ups, if the project defines the name.
fn find_net(
    alloc: Global,
    project: &Project,
    built: Vec<Option<Shared>>,
    name: &str,
) -> Result<Option<Compiled>, AllocError>
    requires { CentresAreBuilt project.now built.items }
    ensures shows { (said : Said) → IsLoadedFrom said project.now → IfOk result (λ compiled. ShowsNet project.now.alphabet name.now (option_map (λ c. c.net) compiled) (project_in said)) }
    ensures over { IfOk result (λ compiled. IfSome compiled (λ c. IsOverAlphabet project.now.alphabet c.net)) }
{
    match project.find(name) {
        Some(place) => {
            let network = network_at(alloc, project, built, place)?;
            Ok(Some(Compiled::of(alloc, network)?))
        }
        None => Ok(None),
    }
}

impl Network {
    /// The network of this name in a project.
    pub fn of(alloc: Global, ready: Ready, name: Text) -> Result<Network, AllocError>
        ensures shows { (said : Said) → IsLoadedFrom said ready → IfOk result (λ network. Shows network (project_in said)) }
        ensures name { IfOk result (λ network. network.name ≡ name) }
        ensures glosses { IfOk result (λ network. network.glosses ≡ ready.glosses) }
    {
        let (project, built) = ready.into_parts();
        let compiled = find_net(alloc, &project, built, name.as_str())?;
        Ok(Network {
            project,
            name,
            compiled,
        })
    }

    /// The reply to a word in Normalization Form C, at a version.
    pub fn reply_to(
        &self,
        alloc: Global,
        direction: Direction,
        version: u64,
        word: &str,
    ) -> Result<Vec<u8>, AllocError>
        requires { length word.now < 2 ^ 32 - 1 }
        ensures { (project : Meant) → Shows self.now project → IfOk result (λ bytes. RepliesToWord project direction version self.now.name word.now bytes.items) }
    {
        match &self.compiled {
            Some(compiled) => {
                reply_in(
                    alloc,
                    self.project.alphabet(),
                    compiled.net(),
                    direction,
                    version,
                    word,
                )
            }
            None => no_net(alloc, version, self.name.as_str()),
        }
    }

    /// The reply to a text in Normalization Form C whose words are glossed, at a version.
    pub fn gloss(&self, alloc: Global, version: u64, text: &str) -> Result<Vec<u8>, AllocError>
        requires { length text.now < 2 ^ 32 - 1 }
        ensures { (project : Meant) → Shows self.now project → IfOk result (λ bytes. GlossesText project self.now.glosses version self.now.name text.now bytes.items) }
    {
        match &self.compiled {
            Some(compiled) => {
                gloss_in(
                    alloc,
                    self.project.alphabet(),
                    compiled.net(),
                    self.project.glosses(),
                    version,
                    text,
                )
            }
            None => no_net(alloc, version, self.name.as_str()),
        }
    }
}
