ghost use Rattle.std.specs.Prelude.{◌≡◌, ◌≤◌, IfOk, List, MatchResult, length};
ghost use Rattle.fsm_base.specs.Normal.{nfc_of};
ghost use Rattle.fsm_io.specs.Lines.{most_line};
ghost use Rattle.interlinear.specs.Glosses.{Entry};
ghost use Rattle.interlinear.specs.Replies.{GlossesText};
ghost use Rattle.lane_session.specs.Sending.{bytes_of};
ghost use Rattle.project_sources.specs.Edits.{Version as Meant};
ghost use Rattle.project_store.specs.Projects.{HasTable};
ghost use Rattle.project_versions.specs.Looks.{IsShort, RepliesToAsked};
ghost use Rattle.project_versions.specs.Versions.{Stands};
ghost use Rattle.reply_meaning.specs.Replies.{RepliesToWord, headed};

use crate::version::Version;
use edit_script::{CommandError, Look, read_look};
use fsm_base::nfc;
use lane_meaning::Replying;
use lane_session::{Answers, Reply};
use lookup_answers::Direction;
use publish_board::Release;
use reply_text::Head;
use std::alloc::{AllocError, Global};

impl Release for Version {
    ghost number_of = { λ version. version.number };

    fn number(&self) -> u64 {
        Version::number(self)
    }
}

impl Replying for Version {
    ghost use Rattle.project_versions.specs.Looks.{RepliesAt};

    ghost replies = { RepliesAt };
}

/// The reply to a word that is looked up in a name. Both are put into Normalization Form C first.
pub fn reply_to_word(
    alloc: Global,
    version: &Version,
    direction: Direction,
    net: &str,
    word: &str,
) -> Result<Vec<u8>, AllocError>
    requires { length word.now ≤ most_line }
    ensures { (meant : Meant) → Stands version.now meant → IfOk result (λ bytes. RepliesToWord meant.project direction meant.number (nfc_of net.now) (nfc_of word.now) bytes.items) }
{
    let net = nfc(alloc, net)?;
    let word = nfc(alloc, word)?;
    version.reply_to(alloc, direction, net.as_str(), word.as_str())
}

/// The reply to a text whose words are looked up in a name and told in glosses. Both are put into Normalization Form C first.
fn reply_to_text(
    alloc: Global,
    version: &Version,
    net: &str,
    text: &str,
) -> Result<Vec<u8>, AllocError>
    requires { length text.now ≤ most_line }
    ensures { (meant : Meant) (table : List Entry) → Stands version.now meant → HasTable meant.files table
        → IfOk result (λ bytes. GlossesText meant.project table meant.number (nfc_of net.now) (nfc_of text.now) bytes.items) }
{
    let net = nfc(alloc, net)?;
    let text = nfc(alloc, text)?;
    version.gloss(alloc, net.as_str(), text.as_str())
}

/// The reply that was made, or that there was no memory for it.
fn made(found: Result<Vec<u8>, AllocError>) -> Reply
    ensures { MatchResult found (λ bytes. result ≡ Reply.Bytes bytes) (λ refused. result ≡ Reply.Short Head.Memory) }
{
    match found {
        Ok(bytes) => Reply::Bytes(bytes),
        Err(_) => Reply::Short(Head::Memory),
    }
}

/// The reply to what a line asks for.
fn reply_to_look(alloc: Global, version: &Version, look: &Look) -> Reply
    requires { IsShort look.now }
    ensures { (meant : Meant) (table : List Entry) → Stands version.now meant → HasTable meant.files table → RepliesToAsked meant table look.now (bytes_of version.now.number result) }
{
    match look {
        Look::Up { net, word } => made(reply_to_word(
            alloc,
            version,
            Direction::Up,
            net.as_str(),
            word.as_str(),
        )),
        Look::Down { net, word } => made(reply_to_word(
            alloc,
            version,
            Direction::Down,
            net.as_str(),
            word.as_str(),
        )),
        Look::Gloss { net, text } => {
            made(reply_to_text(alloc, version, net.as_str(), text.as_str()))
        }
        Look::Rest => Reply::Short(Head::Line),
    }
}

impl Answers for Version {
    ghost use Rattle.std.specs.Prelude.{codes};
    ghost use Rattle.std.proofs.Common.{ap};
    ghost use Rattle.project_versions.specs.Looks.{long};

    ghost long_is_reply = { λ value version stands. long (ap (λ number. headed number (codes "long")) stands.number) };

    fn answer(&self, alloc: Global, line: &[u8]) -> Reply {
        match read_look(alloc, line) {
            Ok(look) => reply_to_look(alloc, self, &look),
            Err(CommandError::Bad) => Reply::Short(Head::Line),
            Err(CommandError::Memory(_)) => Reply::Short(Head::Memory),
        }
    }
}
