ghost use Rattle.std.specs.Prelude.{IfOk};
ghost use Rattle.project_sources.specs.Sources.{Said, project_in};
ghost use Rattle.project_store.specs.Loaded.{IsLoadedFrom};
ghost use Rattle.pair_lines.specs.Opening.{IsOpened};

use crate::lines::no_grammar;
use crate::pair_rules::PairRules;
use fsm_base::Text;
use project_definitions::Body;
use project_store::Ready;
use reply_text::no_net;
use std::alloc::{AllocError, Global};

/// What there is of a name whose rules are asked for.
#[derive(Drop)]
pub enum Opened {
    /// Its rules, ready to be tried.
    Rules(PairRules),
    /// The line that says why there are none, with its newline: `V net NAME` where the project doesn't define the name, and
    /// `V kind NAME` where it doesn't by a twolc file.
    Refusal(Vec<u8>),
}

impl Opened {
    /// The rules of this name in a project, or the line that refuses it at a version.
    pub fn of(alloc: Global, ready: &Ready, version: u64, name: Text) -> Result<Opened, AllocError>
        ensures { (said : Said) → IsLoadedFrom said ready.now → IfOk result (IsOpened (project_in said) version name) }
    {
        let project = ready.project();
        let Some(place) = project.find(name.as_str()) else {
            return Ok(Opened::Refusal(no_net(alloc, version, name.as_str())?));
        };
        let plan = project.plan();
        let Body::Twolc(grammar) = &plan.definitions()[place].body else {
            return Ok(Opened::Refusal(no_grammar(alloc, version, name.as_str())?));
        };
        let rules = PairRules::of_grammar(alloc, project.alphabet(), name, grammar)?;
        Ok(Opened::Rules(rules))
    }
}
