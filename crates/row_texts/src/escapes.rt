use std::alloc::{AllocError, Global};

/// The most times that one escape repeats a byte or a part.
const MOST_TIMES: usize = 2_000_000;

/// What was read of an escape.
#[derive(Clone, Copy)]
enum State {
    /// No escape is open.
    Plain,
    /// A backslash.
    Escaped,
    /// `\x`.
    Hex,
    /// `\x` and its first digit.
    HexDigit(u8),
    /// `\(` and a number.
    Count(usize),
    /// `\(N)`.
    Repeated(usize),
    /// `\{` and a number.
    PartCount(usize),
}

/// The bytes so far, and the part of them that is to be repeated: where it begins, and how many times it is wanted.
#[derive(Drop)]
struct Undoing {
    /// The bytes so far.
    bytes: Vec<u8>,
    /// Where the part begins.
    start: usize,
    /// How many times it is wanted.
    times: usize,
}

/// The value of a digit, decimal or hexadecimal; 0 for what is none.
fn digit(byte: u8) -> u8 {
    match byte {
        b'0'..=b'9' => byte - b'0',
        b'a'..=b'f' => byte - b'a' + 10,
        _ => 0,
    }
}

/// A number with one more digit.
fn with_digit(count: usize, byte: u8) -> usize {
    let more = digit(byte) as usize;
    count.saturating_mul(10).saturating_add(more)
}

impl Undoing {
    /// Puts a byte so many times.
    fn put_times(&mut self, byte: u8, times: usize) -> Result<(), AllocError> {
        for _ in 0..times.min(MOST_TIMES) {
            self.bytes.push(byte)?;
        }
        Ok(())
    }

    /// Begins a part that is wanted so many times.
    fn begin_part(&mut self, times: usize) {
        self.start = self.bytes.len();
        self.times = times;
    }

    /// Repeats the part that ends here.
    fn end_part(&mut self) -> Result<(), AllocError> {
        let part = self.bytes.split_off(self.start.min(self.bytes.len()))?;
        for _ in 0..self.times.min(MOST_TIMES) {
            self.bytes.extend_from_slice(&part)?;
        }
        self.begin_part(1);
        Ok(())
    }

    /// What a byte behind a backslash does.
    fn escaped(&mut self, byte: u8) -> Result<State, AllocError> {
        match byte {
            b'n' => self.bytes.push(b'\n')?,
            b'r' => self.bytes.push(b'\r')?,
            b't' => self.bytes.push(b'\t')?,
            b'x' => return Ok(State::Hex),
            b'(' => return Ok(State::Count(0)),
            b'{' => return Ok(State::PartCount(0)),
            b'}' => self.end_part()?,
            _ => self.bytes.push(byte)?,
        }
        Ok(State::Plain)
    }

    /// What the next byte of a text does.
    fn step(&mut self, state: State, byte: u8) -> Result<State, AllocError> {
        match state {
            State::Plain if byte == b'\\' => return Ok(State::Escaped),
            State::Plain => self.bytes.push(byte)?,
            State::Escaped => return self.escaped(byte),
            State::Hex => return Ok(State::HexDigit(digit(byte))),
            State::HexDigit(high) => {
                let low = digit(byte);
                self.bytes
                    .push(high.saturating_mul(16).saturating_add(low))?;
            }
            State::Count(count) if byte == b')' => return Ok(State::Repeated(count)),
            State::Count(count) => return Ok(State::Count(with_digit(count, byte))),
            State::Repeated(count) => self.put_times(byte, count)?,
            State::PartCount(count) if byte == b'}' => self.begin_part(count),
            State::PartCount(count) => return Ok(State::PartCount(with_digit(count, byte))),
        }
        Ok(State::Plain)
    }
}

/// The bytes that a text with escapes stands for: `\n`, `\r`, `\t`, `\xHH`, `\(N)c` for N times the byte c,
/// `\{N}PART\}` for N times the part, in which no other such part stands, and `\c` for any other byte c.
///
/// # Errors
///
/// Where there was no memory.
pub fn undone(alloc: Global, text: &str) -> Result<Vec<u8>, AllocError> {
    let mut undoing = Undoing {
        bytes: Vec::new(alloc),
        start: 0,
        times: 1,
    };
    let mut state = State::Plain;
    for byte in text.bytes() {
        state = undoing.step(state, byte)?;
    }
    Ok(undoing.bytes)
}
