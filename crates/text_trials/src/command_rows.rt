use edit_script::{CommandError, EditCommand, Look, command_lines, read_command, read_look};
use fsm_base::Text;
use row_texts::{shown, undone};
use std::alloc::{AllocError, Global};

/// What came of a row, or None where it is no such row.
pub fn said_of_row(alloc: Global, field: &str, value: &str) -> Result<Option<String>, AllocError> {
    said_of_line(alloc, field, &undone(alloc, value)?)
}

/// What came of a row whose value is a line of these bytes.
fn said_of_line(alloc: Global, field: &str, line: &[u8]) -> Result<Option<String>, AllocError> {
    let said = match field {
        "command" => said_of_command(alloc, line),
        "lines" => format!(in alloc; "{}", command_lines(line)),
        "look" => said_of_look(alloc, line),
        _ => return Ok(None),
    }?;
    Ok(Some(said))
}

/// An editor's command, or why there is none.
fn said_of_command(alloc: Global, line: &[u8]) -> Result<String, AllocError> {
    match read_command(alloc, line) {
        Ok(command) => told(alloc, &command),
        Err(error) => String::from_str(alloc, said_of_error(&error)),
    }
}

/// How an editor's command is told.
fn told(alloc: Global, command: &EditCommand) -> Result<String, AllocError> {
    match command {
        EditCommand::Put { file, lines } => {
            format!(in alloc; "put {}, {lines} lines", file.as_str())
        }
        EditCommand::Splice {
            file,
            from,
            count,
            lines,
        } => {
            format!(in alloc;
                "splice {} from {from}, {count} replaced, {lines} lines",
                file.as_str()
            )
        }
        EditCommand::Drop { file } => format!(in alloc; "drop {}", file.as_str()),
        EditCommand::Up { net, word } => said_of_net(alloc, "up", net, word),
        EditCommand::Down { net, word } => said_of_net(alloc, "down", net, word),
        EditCommand::Begin => String::from_str(alloc, "begin"),
        EditCommand::Commit => String::from_str(alloc, "commit"),
        EditCommand::Abandon => String::from_str(alloc, "abandon"),
        EditCommand::End => String::from_str(alloc, "end"),
    }
}

/// A look-up of a lane, or why there is none.
fn said_of_look(alloc: Global, line: &[u8]) -> Result<String, AllocError> {
    match read_look(alloc, line) {
        Ok(look) => told_look(alloc, &look),
        Err(error) => String::from_str(alloc, said_of_error(&error)),
    }
}

/// How a look-up of a lane is told.
fn told_look(alloc: Global, look: &Look) -> Result<String, AllocError> {
    match look {
        Look::Up { net, word } => said_of_net(alloc, "up", net, word),
        Look::Down { net, word } => said_of_net(alloc, "down", net, word),
        Look::Gloss { net, text } => said_of_net(alloc, "gloss", net, text),
        Look::Rest => String::from_str(alloc, "rest"),
    }
}

/// A keyword with a name and a text.
fn said_of_net(
    alloc: Global,
    keyword: &str,
    net: &Text,
    word: &Text,
) -> Result<String, AllocError> {
    let net = shown(alloc, net.as_str().as_bytes())?;
    let word = shown(alloc, word.as_str().as_bytes())?;
    format!(in alloc; "{keyword} <{}> <{}>", net.as_str(), word.as_str())
}

/// Why there is nothing.
fn said_of_error(error: &CommandError) -> &'static str {
    match error {
        CommandError::Bad => "bad",
        CommandError::Memory(_) => "memory",
    }
}
