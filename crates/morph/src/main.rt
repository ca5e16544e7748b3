//! The process of the program: it hands its words, its folder, its standard input and output, and the lanes of the paths behind
//! `--` to [`run`], and ends with the status that this answers. More lanes than there may be are answered as words in no form, and so are
//! lanes whose outputs would overwrite a file of the project or what a lane reads or writes (`outputs`). The files of a lane are opened when
//! it is first read (`late`). All of it goes on in a thread, whose stack has room for the deepest sources, or which isn't made: then the status is 5, and nothing was
//! read or written.
#![tactic(auto)]

mod late;
mod outputs;

ghost use Rattle.std.specs.Prelude.{◌≤◌, IfOk, length, vec_len};

use crate::late::{LateInput, LateOutput};
use crate::outputs::are_apart;
use fsm_base::Text;
use fsm_io::{DirFolder, ReadSource, WriteSink};
use fsm_program::{Lane, run};
use std::alloc::{AllocError, Global};
use std::env::{self, FillError};
use std::io::{self, ErrorKind};
use std::process::ExitCode;
use std::rt::Env;
use std::sync::Wait;
use std::thread::{self, Builder, Threads};

/// A lane over files that are opened when it is first read.
type FileLane<'a> = Lane<ReadSource<LateInput<'a>>, WriteSink<LateOutput<'a>>>;

/// The most lanes.
const MOST_LANES: usize = 16;

/// The status where there is no memory for the words, or for the stack.
const NO_MEMORY: u8 = 5;

/// The room of the stack, in bytes: many times what the deepest sources take (bench/stacks.py).
const STACK: usize = 16 << 20;

/// Whether there is no argument at this place. They are counted from 0, where the program's name stands.
fn is_behind(rt: &HostRuntime, place: usize) -> bool {
    matches!(rt.arg(place, &mut [0u8; 1]), Err(FillError::NotPresent))
}

/// Whether the argument at this place ends the program's words: it is `--`, or there is none.
fn ends_words(rt: &HostRuntime, place: usize) -> bool {
    let mut front = [0u8; 3];
    match rt.arg(place, &mut front) {
        Ok(count) => count == 2 && front[0] == b'-' && front[1] == b'-',
        Err(FillError::NotPresent) => true,
        Err(FillError::TooLong) => false,
    }
}

/// The place at which the words end that stand behind the program's name.
fn end_of_words(rt: &HostRuntime) -> usize {
    (1..usize::MAX)
        .find(|place| ends_words(rt, *place))
        .unwrap_or(usize::MAX)
}

/// How many arguments there are from this place on.
fn paths_from(rt: &HostRuntime, first: usize) -> usize {
    (0..usize::MAX)
        .find(|i| is_behind(rt, first.saturating_add(*i)))
        .unwrap_or(usize::MAX)
}

/// The arguments from one place up to another alone, so that others aren't read.
#[derive(Clone, Copy)]
struct Part<'a> {
    /// The process.
    rt: &'a HostRuntime,
    /// The place of the first argument.
    begin: usize,
    /// The place of the first one behind it that is left out.
    end: usize,
}

impl<'a> Env for Part<'a> {
    fn arg(&self, i: usize, buf: &mut [u8]) -> Result<usize, FillError> {
        match self.begin.checked_add(i) {
            Some(place) if place < self.end => self.rt.arg(place, buf),
            _ => Err(FillError::NotPresent),
        }
    }

    fn var(&self, name: &str, buf: &mut [u8]) -> Result<usize, FillError> {
        self.rt.var(name, buf)
    }

    fn var_at(&self, i: usize, buf: &mut [u8]) -> Result<usize, FillError> {
        self.rt.var_at(i, buf)
    }
}

/// The texts of the arguments from one place up to another, or none where one of them isn't UTF-8.
fn texts_of(rt: &HostRuntime, begin: usize, end: usize) -> io::Result<Vec<String>> {
    let mut texts = Vec::new(rt.alloc());
    match env::args(&(Part { rt, begin, end }, rt.alloc())) {
        Ok(args) => {
            'args: for text in args {
                texts.push(text)?;
            }
            Ok(texts)
        }
        Err(error) if error.kind() == ErrorKind::InvalidData => Ok(texts),
        Err(error) => Err(error),
    }
}

/// The path of the output of the lane that reads this path.
fn output_of(rt: &HostRuntime, path: &str) -> Result<String, AllocError> {
    format!(in rt.alloc(); "{path}.out")
}

/// A lane that reads the file of this path and writes the one with `.out` behind the path. A file that can't be opened fails at each
/// read or write.
fn lane_of<'a>(rt: &'a HostRuntime, path: &str) -> Result<FileLane<'a>, AllocError> {
    let read = String::from_str(rt.alloc(), path)?;
    let input = LateInput::new(rt, read, output_of(rt, path)?);
    let output = LateOutput::new(rt, output_of(rt, path)?);
    Ok(Lane::new(ReadSource::new(Some(input)), WriteSink::new(Some(output))))
}

/// The path at this place. One that isn't UTF-8 is the empty path, which names no file that can be opened.
fn path_at(rt: &HostRuntime, place: usize) -> io::Result<String> {
    match texts_of(rt, place, place.saturating_add(1))?.first() {
        Some(path) => Ok(String::from_str(rt.alloc(), path.as_str())?),
        None => Ok(String::new(rt.alloc())),
    }
}

/// So many paths, of which the first is at this place.
fn paths_at(rt: &HostRuntime, first: usize, count: usize) -> io::Result<Vec<String>>
    requires { count ≤ 16 }
    ensures { IfOk result (λ paths. vec_len paths ≤ 16) }
{
    let mut paths = Vec::new(rt.alloc());
    'paths: for i in 0..count {
        paths.push(path_at(rt, first.saturating_add(i))?)?;
    }
    Ok(paths)
}

/// The lanes of these paths.
fn lanes_of<'a>(rt: &'a HostRuntime, paths: &[String]) -> Result<Vec<FileLane<'a>>, AllocError>
    requires { length paths.now ≤ 16 }
    ensures { IfOk result (λ lanes. vec_len lanes ≤ 16) }
{
    let mut lanes = Vec::new(rt.alloc());
    'paths: for i in 0..paths.len() {
        lanes.push(lane_of(rt, paths[i].as_str())?)?;
    }
    Ok(lanes)
}

/// Whether the outputs of the lanes of these paths may be written where the words serve a project. Lanes of other words are left as they are.
fn may_write(rt: &HostRuntime, words: &[String], paths: &[String]) -> io::Result<bool> {
    match words {
        [command, dir] if command.as_str() == "serve" => {
            let mut outputs = Vec::new(rt.alloc());
            for path in paths {
                outputs.push(output_of(rt, path.as_str())?)?;
            }
            are_apart(rt, dir.as_str(), paths, &outputs)
        }
        _ => Ok(true),
    }
}

/// The path of the folder: the second word, or the current folder where there is none.
fn dir_of(alloc: Global, words: &[String]) -> Result<Text, AllocError> {
    match words.get(1) {
        Some(dir) => Text::of(alloc, dir.as_str()),
        None => Text::of(alloc, "."),
    }
}

/// Runs the program on these words and lanes, and on the process's files and streams. Lanes are answered in threads.
fn answer_to<T: Threads + Wait + Sync>(
    threads: &T,
    rt: &HostRuntime,
    words: &[String],
    lanes: &mut [FileLane<'_>],
) -> Result<u8, AllocError>
    requires { length lanes.old ≤ 16 }
{
    let alloc = rt.alloc();
    let mut folder = DirFolder::new(rt, dir_of(alloc, words)?);
    let mut input = ReadSource::new(Some(rt.stdin()));
    let mut output = WriteSink::new(Some(rt.stdout()));
    Ok(run(
        threads,
        alloc,
        words,
        &mut folder,
        &mut input,
        &mut output,
        lanes,
    ))
}

/// Runs the program on the process's arguments, files and streams.
fn answer<T: Threads + Wait + Sync>(threads: &T, rt: &HostRuntime) -> io::Result<u8> {
    let end = end_of_words(rt);
    let first = end.saturating_add(1);
    let count = paths_from(rt, first);
    if count > MOST_LANES {
        return Ok(answer_to(threads, rt, &[], &mut [])?);
    }
    let words = texts_of(rt, 1, end)?;
    let paths = paths_at(rt, first, count)?;
    if !may_write(rt, &words, &paths)? {
        return Ok(answer_to(threads, rt, &[], &mut [])?);
    }
    let mut lanes = lanes_of(rt, &paths)?;
    Ok(answer_to(threads, rt, &words, &mut lanes)?)
}

/// The status of the process.
fn status<T: Threads + Wait + Sync>(threads: &T, rt: &HostRuntime) -> u8 {
    match answer(threads, rt) {
        Ok(status) => status,
        Err(_) => NO_MEMORY,
    }
}

fn main(rt: HostRuntime) -> ExitCode {
    // A thread has the room of its stack from its start on, or isn't made. That of the main thread is the caller's choice, and might end in the midst of a line.
    let status = thread::scope(thread::scope_env(), &rt, |scope| {
        match Builder::new()
            .stack_size(STACK)
            .spawn_scoped(scope, || status(&rt, &rt))
        {
            Ok(thread) => thread.join(&rt),
            Err(_) => NO_MEMORY,
        }
    });
    ExitCode::from(status)
}
