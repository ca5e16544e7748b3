use crate::MOST_READ;
use crate::print::print_expression;
use regex_ast::{Define, Raw, ReadError};
use regex_reader::read_xfst;
use std::alloc::{AllocError, Global};

/// The definition of a text that has one; `None` where it has a fault.
fn definition(alloc: Global, text: &str) -> Result<Option<Define<Raw>>, AllocError> {
    if text.len() > MOST_READ {
        return Ok(None);
    }
    match read_xfst(alloc, text) {
        Ok(mut defines) => Ok(defines.pop()),
        Err(ReadError::Fault { .. }) => Ok(None),
        Err(ReadError::Memory(error)) => Err(error),
    }
}

/// Whether an expression has a tree, and the same when that is printed and read again.
pub fn is_same_again(alloc: Global, expression: &str) -> Result<bool, AllocError> {
    let text = format!(in alloc; "define N {expression} ;")?;
    let Some(first) = definition(alloc, text.as_str())? else {
        return Ok(false);
    };
    let mut printed = String::from_str(alloc, "define N ")?;
    print_expression(&mut printed, &first.expr)?;
    printed.push_str(";")?;
    let Some(second) = definition(alloc, printed.as_str())? else {
        return Ok(false);
    };
    let shown = format!(in alloc; "{:?}", first.expr)?;
    let again = format!(in alloc; "{:?}", second.expr)?;
    Ok(shown.as_str() == again.as_str())
}
