ghost use Rattle.std.specs.Prelude.{◌≡◌, ◌≢◌, ◌≤◌, ◌<◌, ℕ, List, Option, length, take};
ghost use Rattle.editor_meaning.specs.Editing.{content_of};
ghost use Rattle.edit_script.specs.Commands.{HasKind, HasTexts, lines_behind};
ghost use Rattle.fsm_io.specs.Causes.{Rose};
ghost use Rattle.fsm_io.specs.Reading.{LinesView, size_of};
ghost use Rattle.editor_session.specs.Keeping.{most_kept};
ghost use Rattle.editor_session.specs.Reading.{HasFollowed, HasHeard, HasNext, HasObeyed, IsAsked, IsGoing, IsShortCommand, IsShortNext};

use crate::payload::{Payload, take_lines};
use edit_script::{
    CommandError, CommandKind, EditCommand, command_kind, command_lines, read_command,
};
use fsm_base::Text;
use fsm_io::{LineEvent, Lines, Source};
use lookup_answers::Direction;
use project_edits::Edit;
use project_sources::MOST_BYTES;
use reply_meaning::Ending;
use std::alloc::Global;

/// How many bytes of the lines that follow a command are kept: one more than a file may have, so that an edit with more lines is
/// refused as it is with these.
const MOST_KEPT: usize = MOST_BYTES + 1;

/// What is to be replied to.
#[derive(Drop)]
pub enum Request {
    /// An edit.
    Edit(Edit),
    /// A look-up of a word in a name, both as they are written.
    LookUp {
        /// Which words are asked for.
        direction: Direction,
        /// The name.
        net: Text,
        /// The word.
        word: Text,
    },
    /// A batch is to begin.
    Begin,
    /// The edits of the batch are to be one change.
    Commit,
    /// The batch is to be dropped.
    Abandon,
    /// A line in no form.
    Bad,
    /// A command behind which the input ended before its lines.
    Cut,
    /// An edit for which there was no memory.
    UnkeptEdit,
    /// A look-up for which there was no memory.
    UnkeptLookUp,
}

/// What comes next in an editor's input.
#[derive(Drop)]
pub enum Next {
    /// A request.
    Asks(Request),
    /// Nothing more is replied to.
    Ends(Ending),
}

/// What a command with its lines asks for.
fn asked(command: EditCommand, bytes: Vec<u8>) -> Next
    ensures asked { (more : List (List ℕ)) → length more ≡ lines_behind command → bytes.items ≡ take most_kept (content_of more) → IsAsked command more result }
    ensures short { IsShortCommand command → IsShortNext result }
    ensures other { result ≢ Next.Ends Ending.WriteFailed }
    ensures unread { result ≢ Next.Ends Ending.ReadFailed }
{
    match command {
        EditCommand::Put { file, .. } => Next::Asks(Request::Edit(Edit::Put { file, bytes })),
        EditCommand::Splice {
            file,
            from,
            count,
            ..
        } => Next::Asks(Request::Edit(Edit::Splice {
            file,
            from,
            count,
            bytes,
        })),
        EditCommand::Drop { file } => Next::Asks(Request::Edit(Edit::Drop { file })),
        EditCommand::Up { net, word } => Next::Asks(Request::LookUp {
            direction: Direction::Up,
            net,
            word,
        }),
        EditCommand::Down { net, word } => Next::Asks(Request::LookUp {
            direction: Direction::Down,
            net,
            word,
        }),
        EditCommand::Begin => Next::Asks(Request::Begin),
        EditCommand::Commit => Next::Asks(Request::Commit),
        EditCommand::Abandon => Next::Asks(Request::Abandon),
        EditCommand::End => Next::Ends(Ending::Finished),
    }
}

/// Reads the lines of a command.
fn obeyed<I: Source>(alloc: Global, command: EditCommand, lines: &mut Lines, input: &mut I) -> Next
    ensures short { IsShortCommand command → IsShortNext result }
    ensures obeyed { (left0 : Option (List ℕ)) (budget : ℕ) (heard : List (List ℕ)) → HasHeard left0 (I.left input.old) budget lines.old heard
        → HasObeyed left0 (I.left input.new) budget lines.new heard command result }
    ensures later { size_of lines.new ≤ size_of lines.old }
    ensures unwritten { result ≢ Next.Ends Ending.WriteFailed }
    ensures failed { result ≡ Next.Ends Ending.ReadFailed → Rose (I.faults input.old) (I.faults input.new) }
    ensures later_input { I.faults input.old ≤ I.faults input.new }
{
    let count = command.lines_behind();
    match take_lines(alloc, lines, input, count, MOST_KEPT) {
        Payload::Kept(bytes) => asked(command, bytes),
        Payload::Unkept => Next::Asks(Request::UnkeptEdit),
        Payload::Cut => Next::Asks(Request::Cut),
        Payload::Stopped(ending) => Next::Ends(ending),
    }
}

/// Reads the lines of an edit for whose texts there was no memory.
fn unkept_edit<I: Source>(alloc: Global, lines: &mut Lines, input: &mut I) -> Next
    ensures short { IsShortNext result }
    ensures followed { (left0 : Option (List ℕ)) (budget : ℕ) (heard : List (List ℕ)) → HasHeard left0 (I.left input.old) budget lines.old heard
        → HasKind lines.old.text CommandKind.Edit → HasFollowed left0 (I.left input.new) budget lines.new heard lines.old.text result }
    ensures later { size_of lines.new ≤ size_of lines.old }
    ensures unwritten { result ≢ Next.Ends Ending.WriteFailed }
    ensures failed { result ≡ Next.Ends Ending.ReadFailed → Rose (I.faults input.old) (I.faults input.new) }
    ensures later_input { I.faults input.old ≤ I.faults input.new }
{
    let count = command_lines(lines.text());
    match take_lines(alloc, lines, input, count, 0) {
        Payload::Kept(_bytes) => Next::Asks(Request::UnkeptEdit),
        Payload::Unkept => Next::Asks(Request::UnkeptEdit),
        Payload::Cut => Next::Asks(Request::Cut),
        Payload::Stopped(ending) => Next::Ends(ending),
    }
}

/// Goes on behind a command for whose texts there was no memory.
fn unkept<I: Source>(alloc: Global, lines: &mut Lines, input: &mut I) -> Next
    requires texts { HasTexts lines.old.text }
    ensures short { IsShortNext result }
    ensures followed { (left0 : Option (List ℕ)) (budget : ℕ) (heard : List (List ℕ)) → HasHeard left0 (I.left input.old) budget lines.old heard
        → HasFollowed left0 (I.left input.new) budget lines.new heard lines.old.text result }
    ensures later { size_of lines.new ≤ size_of lines.old }
    ensures unwritten { result ≢ Next.Ends Ending.WriteFailed }
    ensures failed { result ≡ Next.Ends Ending.ReadFailed → Rose (I.faults input.old) (I.faults input.new) }
    ensures later_input { I.faults input.old ≤ I.faults input.new }
{
    match command_kind(lines.text()) {
        Some(CommandKind::Edit) => unkept_edit(alloc, lines, input),
        Some(CommandKind::LookUp) => Next::Asks(Request::UnkeptLookUp),
        Some(CommandKind::Word) => unreachable!(),
        None => unreachable!(),
    }
}

/// Reads the command of the line that was read last, and the lines of the command.
fn followed<I: Source>(alloc: Global, lines: &mut Lines, input: &mut I) -> Next
    ensures short { IsShortNext result }
    ensures followed { (left0 : Option (List ℕ)) (budget : ℕ) (heard : List (List ℕ)) → HasHeard left0 (I.left input.old) budget lines.old heard
        → HasFollowed left0 (I.left input.new) budget lines.new heard lines.old.text result }
    ensures later { size_of lines.new ≤ size_of lines.old }
    ensures unwritten { result ≢ Next.Ends Ending.WriteFailed }
    ensures failed { result ≡ Next.Ends Ending.ReadFailed → Rose (I.faults input.old) (I.faults input.new) }
    ensures later_input { I.faults input.old ≤ I.faults input.new }
{
    match read_command(alloc, lines.text()) {
        Ok(command) => obeyed(alloc, command, lines, input),
        Err(CommandError::Bad) => Next::Asks(Request::Bad),
        Err(CommandError::Memory(_)) => unkept(alloc, lines, input),
    }
}

/// Reads the next command with the lines that follow it, whatever its reply will be.
pub fn next_request<I: Source>(alloc: Global, lines: &mut Lines, input: &mut I) -> Next
    ensures short { IsShortNext result }
    ensures next { (left0 : Option (List ℕ)) (budget : ℕ) (heard : List (List ℕ)) → HasHeard left0 (I.left input.old) budget lines.old heard
        → HasNext left0 (I.left input.new) budget lines.old lines.new heard result }
    ensures progress { IsGoing result → size_of lines.new < size_of lines.old }
    ensures unwritten { result ≢ Next.Ends Ending.WriteFailed }
    ensures failed { result ≡ Next.Ends Ending.ReadFailed → Rose (I.faults input.old) (I.faults input.new) }
    ensures later_input { I.faults input.old ≤ I.faults input.new }
{
    match lines.next(input) {
        LineEvent::Line => followed(alloc, lines, input),
        LineEvent::Long => Next::Asks(Request::Bad),
        LineEvent::End => Next::Ends(Ending::Finished),
        LineEvent::Failed => Next::Ends(Ending::ReadFailed),
        LineEvent::Over => Next::Ends(Ending::Spent),
    }
}
