ghost use Rattle.std.specs.Prelude.{◌≡◌, ◌≤◌, ◌<◌, ◌+◌, ◌-◌, ◌^◌, List, Contains, MatchOption, Ok, IfOk, IfSome, length, map};
ghost use Rattle.std.specs.Option.{option_map};
ghost use Rattle.editor_meaning.specs.Editing.{AreNames, most_edits};
ghost use Rattle.fsm_base.specs.Alphabet.{symbols_of};
ghost use Rattle.interlinear.specs.Glosses.{Entry};
ghost use Rattle.project_definitions.specs.declared.definition.Definition.{Definition as Defined};
ghost use Rattle.interlinear.specs.Replies.{GlossesText};
ghost use Rattle.lookup.specs.Answering.{IsOverAlphabet};
ghost use Rattle.project_meaning.specs.Forms.{kind_in};
ghost use Rattle.project_meaning.specs.Projects.{Defines};
ghost use Rattle.project_sources.specs.Edits.{Version as Meant};
ghost use Rattle.project_sources.specs.Sources.{Said, project_in};
ghost use Rattle.project_store.specs.Loaded.{IsLoadedFrom};
ghost use Rattle.project_store.specs.Networks.{Shows};
ghost use Rattle.project_store.specs.Projects.{HasTable, IsOfSources, Reads};
ghost use Rattle.project_store.specs.Centres.{CentresAreBuilt};
ghost use Rattle.project_versions.specs.Networks.{AreKeptIn, AreNetworks, AreReady, net_in};
ghost use Rattle.project_versions.specs.Versions.{IsVersion, Stands};
ghost use Rattle.reply_meaning.specs.Replies.{RepliesToWord};

use crate::networks::{Built, networks_of};
use fsm_base::{Sym, Text};
use lookup::Net;
use lookup_answers::Direction;
use project_definitions::Definition;
use project_model::Kind;
use project_sources::Sources;
use project_store::{Project, Shared, gloss_in, reply_in};
use reply_text::no_net;
use std::alloc::{AllocError, Global};
use std::marker::Model;

/// A version of a project: its number, its files, and a network for each of its names, with the meaning that the name has in these
/// files. Nothing changes it.
#[derive(Drop)]
pub struct Version {
    /// Its number, from 1 on.
    number: u64,
    /// Its files.
    sources: Sources,
    /// The project that they are.
    project: Project,
    /// The network of each definition at the definition's place, by itself and ready for look-ups.
    networks: Vec<Built>,
}

impl Model for Version {
    ghost use Rattle.regex_ast.specs.contracts.expr.Atom as atom;
    ghost use Rattle.regex_ast.specs.contracts.expr.Expr as expr;
    ghost use Rattle.regex_ast.specs.contracts.twolc.PairPart as part;
    ghost use Rattle.std.specs.Prelude.{map};
    ghost use Rattle.std.specs.Coded.{codes};
    ghost use Rattle.project_versions.specs.Networks.{AreReady, net_in};
    ghost use Rattle.project_versions.specs.Versions.{IsVersion, VersionView};

    ghost Value = { VersionView };

    ghost coded = { Prim.hlevel (codes, (expr.the_row atom.the_row).coded, (expr.the_row (part.the_row atom.the_row)).coded) };

    ghost view = { λ v. record { number = v.number; files = v.sources; loaded = v.project; nets = map net_in v.networks.items } };

    ghost invariant = { λ v. IsVersion (record { number = v.number; files = v.sources; loaded = v.project; nets = map net_in v.networks.items }) × AreReady v.project v.networks.items };
}

impl Version {
    /// The version of this number of a project that is read from these files. `built` has networks that are built already, and `kept`
    /// those among them that are ready for look-ups, too.
    pub(crate) fn of(
        alloc: Global,
        number: u64,
        sources: Sources,
        project: Project,
        built: Vec<Option<Shared>>,
        kept: &[Option<Built>],
    ) -> Result<Version, AllocError>
        requires number { number ≤ most_edits + 1 }
        requires files { IsOfSources sources project }
        requires built { CentresAreBuilt project built.items }
        requires kept { AreKeptIn kept.now built.items }
        ensures { (said : Said) → IsLoadedFrom said project → Reads sources (Ok (project_in said)) → IfOk result (λ version. Stands version (record { number = number; files = sources; project = project_in said })) }
    {
        let networks = networks_of(alloc, &project, built, kept)?;
        Ok(Version {
            number,
            sources,
            project,
            networks,
        })
    }

    /// Its number.
    pub fn number(&self) -> u64
        ensures number { result ≡ self.now.number }
        ensures few { result ≤ most_edits + 1 }
    {
        self.number
    }

    /// Its files.
    pub fn sources(&self) -> &Sources
        ensures { result.now ≡ self.now.files }
    {
        &self.sources
    }

    /// The project that its files are.
    pub(crate) fn project(&self) -> &Project
        ensures { result.now ≡ self.now.loaded }
    {
        &self.project
    }

    /// The network of each of its definitions, at the definition's place.
    pub(crate) fn networks(&self) -> &[Built]
        ensures ready { AreReady self.now.loaded result.now }
        ensures nets { self.now.nets ≡ map net_in result.now }
        ensures said { (said : Said) × IsLoadedFrom said self.now.loaded }
    {
        &self.networks
    }

    /// The names that it defines, in the order of their bytes.
    pub fn names(&self, alloc: Global) -> Result<Vec<Text>, AllocError>
        ensures { (meant : Meant) → Stands self.now meant → IfOk result (λ names. AreNames (Defines meant.project) names.items) }
    {
        self.project.names(alloc)
    }

    /// The symbols of its alphabet, each once.
    pub fn symbols(&self) -> &[Sym]
        ensures { result.now ≡ symbols_of self.now.loaded.alphabet }
    {
        self.project.alphabet().symbols()
    }

    /// The definition of a name, or `None` where the project doesn't define the name.
    pub fn definition(&self, name: &str) -> Option<&Definition>
        ensures { MatchOption result ((d : Defined) → Contains self.now.loaded.definitions d → d.name ≡ name.now → ⊥) (λ definition. Contains self.now.loaded.definitions definition.now × (definition.now.name ≡ name.now)) }
    {
        let place = self.project.find(name)?;
        Some(&self.project.plan().definitions()[place])
    }

    /// Whether a name is a language or a relation, by its definition's form, or `None` where the project doesn't define the name. A
    /// definition of xfst has its expression's kind, where each name in it has that of its own definition; a network of lexc or twolc is a
    /// relation.
    pub fn kind(&self, name: &str) -> Option<Kind>
        ensures { (meant : Meant) → Stands self.now meant → MatchOption result (¬ (Defines meant.project name.now)) (λ kind. Defines meant.project name.now × (kind ≡ kind_in meant.project name.now)) }
    {
        let place = self.project.find(name)?;
        Some(self.project.kind_at(place))
    }

    /// The network of a name, ready for look-ups, if the project defines the name.
    fn net(&self, name: &str) -> Option<&Net>
        ensures over { IfSome result (λ net. IsOverAlphabet self.now.loaded.alphabet net.now) }
        ensures shows { (meant : Meant) → Stands self.now meant
            → Shows (record { alphabet = self.now.loaded.alphabet; name = name.now; net = option_map (λ net. net.now) result; glosses = self.now.loaded.glosses }) meant.project }
    {
        let place = self.project.find(name)?;
        Some(self.networks[place].net())
    }

    /// The reply to a word that is looked up in a name, both in Normalization Form C.
    pub fn reply_to(
        &self,
        alloc: Global,
        direction: Direction,
        net: &str,
        word: &str,
    ) -> Result<Vec<u8>, AllocError>
        requires { length word.now < 2 ^ 32 - 1 }
        ensures { (meant : Meant) → Stands self.now meant → IfOk result (λ bytes. RepliesToWord meant.project direction meant.number net.now word.now bytes.items) }
    {
        let alphabet = self.project.alphabet();
        match self.net(net) {
            Some(network) => reply_in(alloc, alphabet, network, direction, self.number, word),
            None => no_net(alloc, self.number, net),
        }
    }

    /// The reply to a text whose words are looked up in a name and told in glosses. The name and the text are in Normalization Form C.
    pub fn gloss(&self, alloc: Global, net: &str, text: &str) -> Result<Vec<u8>, AllocError>
        requires { length text.now < 2 ^ 32 - 1 }
        ensures { (meant : Meant) (table : List Entry) → Stands self.now meant → HasTable meant.files table → IfOk result (λ bytes. GlossesText meant.project table meant.number net.now text.now bytes.items) }
    {
        let alphabet = self.project.alphabet();
        match self.net(net) {
            Some(network) => {
                let glosses = self.project.glosses();
                gloss_in(alloc, alphabet, network, glosses, self.number, text)
            }
            None => no_net(alloc, self.number, net),
        }
    }
}
