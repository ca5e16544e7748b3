use std::alloc::{AllocError, Global};

/// The most bytes that are shown whole.
const MOST_SHOWN: usize = 300;

/// How many bytes are shown where there are more.
const FIRST_SHOWN: usize = 40;

/// Writes a byte as it is shown.
fn show_byte(alloc: Global, shown: &mut String, byte: u8) -> Result<(), AllocError> {
    match byte {
        b'\n' => shown.push_str("\\n"),
        b'\r' => shown.push_str("\\r"),
        b'\\' => shown.push_str("\\\\"),
        b' '..=b'~' => shown.push(char::from(byte)),
        _ => {
            let hex = format!(in alloc; "\\x{byte:02x}")?;
            shown.push_str(hex.as_str())
        }
    }
}

/// Bytes on one line, with `\n`, `\r`, `\\` and `\xHH`. Of more than 300 bytes, how many lines they have and the
/// first 40.
///
/// # Errors
///
/// Where there was no memory.
pub fn shown(alloc: Global, bytes: &[u8]) -> Result<String, AllocError> {
    let mut shown = String::new(alloc);
    if bytes.len() > MOST_SHOWN {
        let lines = bytes.iter().filter(|byte| **byte == b'\n').count();
        shown.push_str(format!(in alloc; "{lines} lines: ")?.as_str())?;
    }
    let most = if bytes.len() > MOST_SHOWN {
        FIRST_SHOWN
    } else {
        MOST_SHOWN
    };
    for byte in bytes.iter().take(most) {
        show_byte(alloc, &mut shown, *byte)?;
    }
    Ok(shown)
}

/// Adds a row, and what came of it in the lines below.
pub fn add_row(told: &mut String, row: &str, outcome: &str) -> Result<(), AllocError> {
    add_line(told, row)?;
    add_line(told, outcome)
}

/// Adds a line, with its newline.
pub fn add_line(told: &mut String, line: &str) -> Result<(), AllocError> {
    told.push_str(line)?;
    told.push('\n')
}
