ghost use Rattle.std.specs.Prelude.{◌≤◌, IfOk, vec_len};

use crate::lane::{MemoryLane, RowLane};
use crate::numbers::{WHOLE, numbers, size};
use crate::spoiled::{Spoiled, Way, spoil};
use fsm_base::Text;
use fsm_io::{MemoryFolder, MemorySink, MemorySource};
use fsm_program::run;
use row_texts::{shown, undone};
use std::alloc::{AllocError, Global};
use std::sync::Wait;
use std::thread::Threads;

/// The most lanes of a row.
const MOST_LANES: usize = 16;

/// A folder, words, and streams.
#[derive(Drop)]
pub struct Row {
    /// Its name.
    name: Text,
    /// The files of its folder.
    files: Vec<(Text, Vec<u8>)>,
    /// The words of its command.
    words: Vec<String>,
    /// The bytes of its input.
    input: Vec<u8>,
    /// Which call of the folder, the input and the output fails, counted from 1; 0 for none.
    fails: [u64; 3],
    /// How many bytes the input gives at once, the output takes at once, and the output takes at all.
    sizes: [usize; 3],
    /// Its lanes.
    lanes: Vec<RowLane>,
}

/// What came of a row.
#[derive(Drop)]
struct Answer {
    /// The status.
    status: u8,
    /// What the output got.
    written: Vec<u8>,
    /// The lanes, with what they got.
    lanes: Vec<MemoryLane>,
}

impl Row {
    /// A row of this name, with no file, no word and an empty input.
    pub fn named(alloc: Global, name: &str) -> Result<Row, AllocError> {
        Ok(Row {
            name: Text::of(alloc, name)?,
            files: Vec::new(alloc),
            words: Vec::new(alloc),
            input: Vec::new(alloc),
            fails: [0; 3],
            sizes: [WHOLE; 3],
            lanes: Vec::new(alloc),
        })
    }

    /// Adds a file: its name, a space, and its text.
    pub fn add_file(&mut self, alloc: Global, value: &str) -> Result<(), AllocError> {
        let (name, text) = value.split_once(' ').unwrap_or((value, ""));
        let bytes = undone(alloc, text)?;
        self.files.push((Text::of(alloc, name)?, bytes))?;
        Ok(())
    }

    /// Sets the words, which one space separates.
    pub fn set_words(&mut self, alloc: Global, value: &str) -> Result<(), AllocError> {
        let mut words = Vec::new(alloc);
        for word in value.split(' ') {
            words.push(String::from_str(alloc, word)?)?;
        }
        self.words = words;
        Ok(())
    }

    /// Sets the bytes of the input.
    pub fn set_input(&mut self, alloc: Global, value: &str) -> Result<(), AllocError> {
        self.input = undone(alloc, value)?;
        Ok(())
    }

    /// Sets which call of the folder, the input and the output fails.
    pub fn set_fails(&mut self, value: &str) {
        self.fails = numbers(value);
    }

    /// Sets how many bytes the input gives and the output takes at once, and how many the output takes at all.
    pub fn set_sizes(&mut self, value: &str) {
        let [read, write, room] = numbers(value);
        self.sizes = [size(read), size(write), size(room)];
    }

    /// Adds a lane with this input.
    pub fn add_lane(&mut self, alloc: Global, value: &str) -> Result<(), AllocError> {
        self.lanes.push(RowLane::of(alloc, value)?)?;
        Ok(())
    }

    /// The lane that was added last.
    pub fn last_lane(&mut self) -> Option<&mut RowLane> {
        self.lanes.last_mut()
    }

    /// The folder of the row's files, where one of them may have another content.
    fn folder(&self, alloc: Global, spoiled: Option<&Spoiled>) -> Result<MemoryFolder, AllocError> {
        let mut files = Vec::new(alloc);
        for (number, (name, bytes)) in self.files.iter().enumerate() {
            let content = match spoiled {
                Some(spoiled) if spoiled.file == number => spoiled.content.as_slice(),
                _ => bytes.as_slice(),
            };
            files.push((name.clone()?, Vec::from_slice(alloc, content)?))?;
        }
        let fails = Vec::from_slice(alloc, &[self.fails[0]])?;
        Ok(MemoryFolder::new(files, fails))
    }

    /// The row's lanes, of which those beyond the most are left out.
    fn open_lanes(&self, alloc: Global) -> Result<Vec<MemoryLane>, AllocError>
        ensures { IfOk result (λ lanes. vec_len lanes ≤ 16) }
    {
        let mut lanes = Vec::new(alloc);
        'lanes: for lane in &self.lanes[..self.lanes.len().min(MOST_LANES)] {
            lanes.push(lane.open(alloc)?)?;
        }
        Ok(lanes)
    }

    /// What comes of these words and this input.
    fn answer<R: Threads + Wait + Sync>(
        &self,
        rt: &R,
        alloc: Global,
        words: &[String],
        input: &[u8],
    ) -> Result<Answer, AllocError> {
        self.answer_in(rt, alloc, self.folder(alloc, None)?, words, input)
    }

    /// What comes of these words and this input in a folder.
    fn answer_in<R: Threads + Wait + Sync>(
        &self,
        rt: &R,
        alloc: Global,
        mut folder: MemoryFolder,
        words: &[String],
        input: &[u8],
    ) -> Result<Answer, AllocError> {
        let mut source = MemorySource::new(
            Vec::from_slice(alloc, input)?,
            self.sizes[0].max(1),
            Vec::from_slice(alloc, &[self.fails[1]])?,
        );
        let mut sink = MemorySink::new(
            alloc,
            self.sizes[2],
            self.sizes[1].max(1),
            Vec::from_slice(alloc, &[self.fails[2]])?,
        )?;
        let mut lanes = self.open_lanes(alloc)?;
        let status = run(
            rt,
            alloc,
            words,
            &mut folder,
            &mut source,
            &mut sink,
            &mut lanes,
        );
        let written = Vec::from_slice(alloc, sink.bytes())?;
        Ok(Answer {
            status,
            written,
            lanes,
        })
    }

    /// A status, these bytes, and each lane that isn't as it wants to be.
    fn told(&self, alloc: Global, answer: &Answer, bytes: &[u8]) -> Result<String, AllocError> {
        let shown = shown(alloc, bytes)?;
        let mut told = format!(in alloc; "{} {}", answer.status, shown.as_str())?;
        'lanes: for (number, (lane, opened)) in self
            .lanes
            .iter()
            .zip(answer.lanes.iter())
            .enumerate()
        {
            if let Some(outcome) = lane.told(alloc, opened)? {
                told.push_str(format!(in alloc; " lane {number}: {}", outcome.as_str())?.as_str())?;
            }
        }
        Ok(told)
    }

    /// The row's name.
    pub fn name(&self) -> &str {
        self.name.as_str()
    }

    /// Runs the row: the status, what was written, and each lane that isn't as it wants to be.
    pub fn outcome<R: Threads + Wait + Sync>(
        &self,
        rt: &R,
        alloc: Global,
    ) -> Result<String, AllocError> {
        let answer = self.answer(rt, alloc, &self.words, &self.input)?;
        self.told(alloc, &answer, &answer.written)
    }

    /// Runs the row: the same with the last line alone that was written.
    pub fn last_outcome<R: Threads + Wait + Sync>(
        &self,
        rt: &R,
        alloc: Global,
    ) -> Result<String, AllocError> {
        let answer = self.answer(rt, alloc, &self.words, &self.input)?;
        let count = answer.written.iter().filter(|byte| **byte == b'\n').count();
        self.told(
            alloc,
            &answer,
            line(&answer.written, count.saturating_sub(1)),
        )
    }

    /// The row's words, the first of which is `down` now.
    fn down_words(&self, alloc: Global) -> Result<Vec<String>, AllocError> {
        let mut words = Vec::new(alloc);
        words.push(String::from_str(alloc, "down")?)?;
        for word in self.words.iter().skip(1) {
            words.push(String::from_str(alloc, word.as_str())?)?;
        }
        Ok(words)
    }

    /// Runs a row that looks up one word: nothing where the reply is a loop that goes round, and `down` gives the
    /// word alone for the three shortest words that the loop stands for.
    pub fn loop_outcome<R: Threads + Wait + Sync>(
        &self,
        rt: &R,
        alloc: Global,
    ) -> Result<&'static str, AllocError> {
        let reply = self.answer(rt, alloc, &self.words, &self.input)?.written;
        let words = turned(alloc, &reply)?;
        let lower = self
            .answer(rt, alloc, &self.down_words(alloc)?, &words)?
            .written;
        let wanted = each_with(alloc, &words, &self.input)?;
        let is_lawful = reply.starts_with(b"1 loop ") && goes_round(&reply) && lower == wanted;
        Ok(if is_lawful { "" } else { "no lawful loop" })
    }

    /// Whether the answer is lawful where one of the row's files is spoiled: the project is accepted, or refused for a fault.
    fn is_lawful<R: Threads + Wait + Sync>(
        &self,
        rt: &R,
        alloc: Global,
        spoiled: &Spoiled,
    ) -> Result<bool, AllocError> {
        let folder = self.folder(alloc, Some(spoiled))?;
        let answer = self.answer_in(rt, alloc, folder, &self.words, &self.input)?;
        Ok(match answer.status {
            0 => answer.written.starts_with(b"ok 1 "),
            2 => answer.written.starts_with(b"refused "),
            _ => false,
        })
    }

    /// Runs the row, which checks its project, with so many fronts of each file in its place, and as many times with a byte of it changed: nothing where each
    /// answer is lawful, and else how many aren't.
    pub fn spoiled_outcome<R: Threads + Wait + Sync>(
        &self,
        rt: &R,
        alloc: Global,
        times: usize,
    ) -> Result<String, AllocError> {
        let mut unlawful = 0u64;
        'files: for (number, (_, content)) in self.files.iter().enumerate() {
            'times: for time in 0..times {
                for way in [Way::Front, Way::Change] {
                    let spoiled = spoil(alloc, number, content, way, time, times)?;
                    if !self.is_lawful(rt, alloc, &spoiled)? {
                        unlawful = unlawful.saturating_add(1);
                    }
                }
            }
        }
        match unlawful {
            0 => Ok(String::new(alloc)),
            _ => format!(in alloc; "{unlawful} answers aren't lawful"),
        }
    }
}

/// A line of bytes, counted from 0; empty where there is none.
fn line(bytes: &[u8], number: usize) -> &[u8] {
    bytes
        .split(|byte| *byte == b'\n')
        .nth(number)
        .unwrap_or(&[])
}

/// Whether the round of a loop's reply, its third line, is a text.
fn goes_round(reply: &[u8]) -> bool {
    !line(reply, 2).is_empty()
}

/// The three shortest words that a loop's reply stands for, one a line: before, round none to two times, and after.
fn turned(alloc: Global, reply: &[u8]) -> Result<Vec<u8>, AllocError> {
    let mut words = Vec::new(alloc);
    for turns in 0usize..3 {
        words.extend_from_slice(line(reply, 1))?;
        for _ in 0..turns {
            words.extend_from_slice(line(reply, 2))?;
        }
        words.extend_from_slice(line(reply, 3))?;
        words.push(b'\n')?;
    }
    Ok(words)
}

/// The replies to three words, each with this one answer.
fn each_with(alloc: Global, words: &[u8], answer: &[u8]) -> Result<Vec<u8>, AllocError> {
    let mut replies = Vec::new(alloc);
    for word in words.split(|byte| *byte == b'\n').take(3) {
        replies.extend_from_slice(b"1 1 ")?;
        replies.extend_from_slice(word)?;
        replies.push(b'\n')?;
        replies.extend_from_slice(answer)?;
    }
    Ok(replies)
}
