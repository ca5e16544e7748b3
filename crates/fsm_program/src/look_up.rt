ghost use Rattle.std.specs.Prelude.{◌<◌, ◌≤◌, ◌-◌, ◌^◌, Some, codes, length, IfOk, IfSome};
ghost use Rattle.fsm_base.specs.Normal.{nfc_of};
ghost use Rattle.fsm_io.specs.Buffers.{most_gathered};
ghost use Rattle.fsm_io.specs.Causes.{HasCause};
ghost use Rattle.fsm_io.specs.Lines.{most_line};
ghost use Rattle.fsm_io.specs.Sinks.{Gathers};
ghost use Rattle.project_meaning.specs.Projects.{Project};
ghost use Rattle.reply_meaning.specs.Replies.{headed};
ghost use Rattle.reply_text.specs.Heads.{head_word};
ghost use Rattle.fsm_program.specs.Foreseen.{IsForeseen};
ghost use Rattle.project_store.specs.Networks.{Shows};
ghost use Rattle.fsm_program.specs.Sending.{Sends};
ghost use Rattle.fsm_program.specs.Tasks.{RepliesToLineIn, RepliesToText, RepliesToTextIn};

use crate::ahead::Foreseen;
use fsm_base::nfc;
use fsm_io::{Failed, MOST_LINE, Outbox, Sink};
use lookup_answers::Direction;
use pair_lines::PairRules;
use project_store::Network;
use reply_meaning::without_return;
use reply_text::{Head, short};
use saved_networks::SavedNetwork;
use std::alloc::{AllocError, Global};
use std::str;

/// What is done with each line.
#[derive(Clone, Copy, Debug, PartialEq, Eq)]
pub enum Task {
    /// It is a word, of which the words in this direction are told.
    Words(Direction),
    /// It is a text whose words are glossed.
    Glosses,
}

/// What lines are looked up in.
#[derive(Drop)]
pub enum Subject {
    /// A name of a project.
    Named {
        /// The name, and its network if the project defines it.
        network: Network,
        /// What is done with each line.
        task: Task,
    },
    /// The rules of a name: each line is a string of pairs, which keeps them or breaks one.
    Rules(PairRules),
    /// A network that was saved as AT&T text: of each line, a word, the upper words are told.
    Saved(SavedNetwork),
}

/// What lines are looked up in, at a version of the project.
#[derive(Drop)]
pub struct LookUp {
    /// What they are looked up in.
    pub subject: Subject,
    /// The version's number, which every reply names.
    pub version: u64,
}

/// The reply to a text in Normalization Form C that is looked up in a name.
fn reply_of_name(
    alloc: Global,
    network: &Network,
    task: Task,
    version: u64,
    text: &str,
) -> Result<Vec<u8>, AllocError>
    requires { length text.now < 2 ^ 32 - 1 }
    ensures { (project : Project) → Shows network.now project → IfOk result (λ bytes. RepliesToText task project network.now.glosses version network.now.name text.now bytes.items) }
{
    match task {
        Task::Words(direction) => network.reply_to(alloc, direction, version, text),
        Task::Glosses => network.gloss(alloc, version, text),
    }
}

impl LookUp {
    /// Gathers a reply of one word.
    fn put_short<O: Sink>(
        &self,
        head: Head,
        outbox: &mut Outbox,
        output: &mut O,
    ) -> Result<(), Failed>
        ensures bytes { Gathers (O.held output.old) (O.held output.new) outbox.old (headed self.now.version (head_word head)) outbox.new result }
        ensures few { length outbox.new ≤ most_gathered }
        ensures cause { HasCause (O.faults output.old) (O.faults output.new) result }
    {
        let mut buf = [0u8; 64];
        let end = short(self.version, head, &mut buf);
        outbox.put(output, &buf[..end])
    }

    /// The reply to the text of a line, which is put into Normalization Form C first.
    fn reply_to_text(&self, alloc: Global, text: &str) -> Result<Vec<u8>, AllocError>
        requires { length text.now ≤ most_line }
        ensures { IfOk result (λ bytes. RepliesToTextIn self.now.subject self.now.version (nfc_of text.now) bytes.items) }
    {
        let text = nfc(alloc, text)?;
        match &self.subject {
            Subject::Named { network, task } => {
                reply_of_name(alloc, network, *task, self.version, text.as_str())
            }
            Subject::Rules(rules) => rules.reply_to(alloc, self.version, text.as_str()),
            Subject::Saved(network) => network.reply_to(alloc, self.version, text.as_str()),
        }
    }

    /// A line with its reply, or None where it is long or no text, where the reply has more than so many bytes, or where there was no memory.
    pub fn foresee(&self, alloc: Global, line: &[u8], most: usize) -> Option<Foreseen>
        ensures { IfSome result (IsForeseen self.now) }
    {
        if line.len() > MOST_LINE {
            return None;
        }
        let Ok(text) = str::from_utf8(without_return(line)) else {
            return None;
        };
        match self.reply_to_text(alloc, text) {
            Ok(reply) if reply.len() <= most => Foreseen::of(alloc, line, reply),
            _ => None,
        }
    }

    /// Gathers the reply to a line that isn't long: the foreseen one, where it is that line's.
    pub fn reply<O: Sink>(
        &self,
        alloc: Global,
        foreseen: Option<&Foreseen>,
        line: &[u8],
        outbox: &mut Outbox,
        output: &mut O,
    ) -> Result<(), Failed>
        requires short { length line.now ≤ most_line }
        requires foreseen { IfSome foreseen (λ one. IsForeseen self.now one.now) }
        ensures sends { Sends (RepliesToLineIn self.now.subject self.now.version (Some line.now)) (O.held output.old) (O.held output.new) outbox.old outbox.new result }
        ensures cause { HasCause (O.faults output.old) (O.faults output.new) result }
    {
        match foreseen {
            Some(one) if one.line.as_slice() == line => outbox.put(output, &one.reply),
            _ => self.reply_now(alloc, line, outbox, output),
        }
    }

    /// Makes and gathers the reply to a line that isn't long.
    fn reply_now<O: Sink>(
        &self,
        alloc: Global,
        line: &[u8],
        outbox: &mut Outbox,
        output: &mut O,
    ) -> Result<(), Failed>
        requires { length line.now ≤ most_line }
        ensures sends { Sends (RepliesToLineIn self.now.subject self.now.version (Some line.now)) (O.held output.old) (O.held output.new) outbox.old outbox.new result }
        ensures cause { HasCause (O.faults output.old) (O.faults output.new) result }
    {
        match str::from_utf8(without_return(line)) {
            Ok(text) => match self.reply_to_text(alloc, text) {
                Ok(bytes) => outbox.put(output, &bytes),
                Err(_) => self.put_short(Head::Memory, outbox, output),
            },
            Err(_) => self.put_short(Head::Line, outbox, output),
        }
    }

    /// Gathers the reply to a long line.
    pub fn reply_long<O: Sink>(&self, outbox: &mut Outbox, output: &mut O) -> Result<(), Failed>
        ensures bytes { Gathers (O.held output.old) (O.held output.new) outbox.old (headed self.now.version (codes "long")) outbox.new result }
        ensures few { length outbox.new ≤ most_gathered }
        ensures cause { HasCause (O.faults output.old) (O.faults output.new) result }
    {
        self.put_short(Head::Long, outbox, output)
    }
}
