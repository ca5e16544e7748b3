use std::alloc::{AllocError, Global};

/// What indents the lines of an example.
const INDENT: &str = "    ";

/// What stands before a command.
const PROMPT: &str = "$ ";

/// A command, and its answer as the document has it.
#[derive(Drop)]
pub struct Shown {
    /// The command.
    pub command: String,
    /// The lines that stand below it, each with its newline.
    pub answer: String,
}

/// Adds a line of an answer to the last command, if there is one.
fn add_line(examples: &mut [Shown], line: &str) -> Result<(), AllocError> {
    if let Some(example) = examples.last_mut() {
        example.answer.push_str(line)?;
        example.answer.push('\n')?;
    }
    Ok(())
}

/// The commands of a document with their answers, in order.
pub fn shown_in(alloc: Global, document: &str) -> Result<Vec<Shown>, AllocError> {
    let mut examples = Vec::new(alloc);
    let mut is_answer = false;
    'lines: for line in document.lines() {
        let Some(line) = line.strip_prefix(INDENT) else {
            is_answer = false;
            continue;
        };
        if let Some(command) = line.strip_prefix(PROMPT) {
            is_answer = true;
            examples.push(Shown {
                command: String::from_str(alloc, command)?,
                answer: String::new(alloc),
            })?;
        } else if is_answer {
            add_line(&mut examples, line)?;
        }
    }
    Ok(examples)
}
