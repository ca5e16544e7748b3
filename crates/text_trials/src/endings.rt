use regex_tokens::Ending;
use std::alloc::{AllocError, Global};

/// Adds whether the tokens of a text go to its end, or in which line no token begins.
pub fn add_ending(alloc: Global, said: &mut String, ending: Ending) -> Result<(), AllocError> {
    match ending {
        Ending::Whole => said.push_str("end"),
        Ending::NoToken { line } => {
            said.push_str(format!(in alloc; "no token in line {line}")?.as_str())
        }
    }
}
