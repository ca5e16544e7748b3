use crate::sign::Sign;
use crate::sink::WaitingSink;
use crate::source::{Piece, WaitingSource};
use fsm_base::Text;
use fsm_io::MemoryFolder;
use fsm_program::{Lane, run};
use row_texts::shown;
use std::alloc::{AllocError, Global};
use std::sync::{Arc, Wait};
use std::thread::Threads;

/// A lane whose source and sink wait.
type WaitingLane = Lane<WaitingSource, WaitingSink>;

/// An edit that puts the same text.
const EDIT: &str = "put r.xfst 1\ndefine N {a} ;\n";

/// A line of a lane.
const LOOK: &str = "up N a\n";

/// Two edits, of which the second waits for two lines of a lane's reply.
const TWO_EDITS: &[Piece] = &[
    Piece {
        text: EDIT,
        after: 0,
    },
    Piece {
        text: EDIT,
        after: 2,
    },
];

/// A line that waits for two replies of the editor.
const LATE_LOOK: &[Piece] = &[Piece {
    text: LOOK,
    after: 2,
}];

/// A line that waits for a read that has begun.
const LOOK_BESIDE: &[Piece] = &[Piece {
    text: LOOK,
    after: 1,
}];

/// Words, each of which waits for the two lines of the reply to the one before.
const WORDS_IN_TURN: &[Piece] = &[
    Piece {
        text: "a\n",
        after: 0,
    },
    Piece {
        text: "a\n",
        after: 2,
    },
    Piece {
        text: "a\n",
        after: 4,
    },
];

/// Texts, each of which waits for the four lines of the reply to the one before.
const TEXTS_IN_TURN: &[Piece] = &[
    Piece {
        text: "a\n",
        after: 0,
    },
    Piece {
        text: "a\n",
        after: 4,
    },
    Piece {
        text: "a\n",
        after: 8,
    },
];

/// A count of 0 that threads share.
fn sign(alloc: Global) -> Result<Arc<Sign>, AllocError> {
    Ok(Arc::new(alloc, Sign::new())?)
}

/// A folder with a project of one definition.
fn folder(alloc: Global) -> Result<MemoryFolder, AllocError> {
    let mut files = Vec::new(alloc);
    files.push((
        Text::of(alloc, "project")?,
        Vec::from_slice(alloc, b"xfst r.xfst\n")?,
    ))?;
    files.push((
        Text::of(alloc, "r.xfst")?,
        Vec::from_slice(alloc, b"define N {a} ;\n")?,
    ))?;
    Ok(MemoryFolder::new(files, Vec::new(alloc)))
}

/// The words `serve d`.
fn serve_words(alloc: Global) -> Result<Vec<String>, AllocError> {
    let mut words = Vec::new(alloc);
    words.push(String::from_str(alloc, "serve")?)?;
    words.push(String::from_str(alloc, "d")?)?;
    Ok(words)
}

/// The words `COMMAND d N`.
fn look_words(alloc: Global, command: &str) -> Result<Vec<String>, AllocError> {
    let mut words = Vec::new(alloc);
    words.push(String::from_str(alloc, command)?)?;
    words.push(String::from_str(alloc, "d")?)?;
    words.push(String::from_str(alloc, "N")?)?;
    Ok(words)
}

/// What a lane's sink got, and whether its seat entered.
fn told_of(alloc: Global, lane: &WaitingLane) -> Result<String, AllocError> {
    let entered = if lane.entered() > 0 {
        "entered"
    } else {
        "didn't enter"
    };
    format!(in alloc; "{}, {entered}", shown(alloc, lane.sink.bytes())?.as_str())
}

/// A lane's source gives its line when the editor's second reply was written, and the editor's source gives the next command when
/// the reply of the lane was.
fn lanes_go_beside_edits<R: Threads + Wait + Sync>(
    rt: &R,
    alloc: Global,
) -> Result<String, AllocError> {
    let (begun, replies, answers) = (sign(alloc)?, sign(alloc)?, sign(alloc)?);
    let mut input = WaitingSource::new(TWO_EDITS, &begun, &answers)?;
    let mut output = WaitingSink::new(alloc, &begun, &begun, 0, &replies)?;
    let mut lanes = [Lane::new(
        WaitingSource::new(LATE_LOOK, &begun, &replies)?,
        WaitingSink::new(alloc, &begun, &begun, 0, &answers)?,
    )];
    let status = run(
        rt,
        alloc,
        &serve_words(alloc)?,
        &mut folder(alloc)?,
        &mut input,
        &mut output,
        &mut lanes,
    );
    format!(in alloc;
        "status {status}\n    editor {}\n    lane {}",
        shown(alloc, output.bytes())?.as_str(),
        told_of(alloc, &lanes[0])?.as_str()
    )
}

/// The first read of each of two lanes ends when that of the other has begun, and the first write likewise. There is no command.
fn lanes_go_beside_lanes<R: Threads + Wait + Sync>(
    rt: &R,
    alloc: Global,
) -> Result<String, AllocError> {
    let counted = sign(alloc)?;
    let (one_reads, other_reads) = (sign(alloc)?, sign(alloc)?);
    let (one_writes, other_writes) = (sign(alloc)?, sign(alloc)?);
    let mut input = WaitingSource::new(&[], &counted, &counted)?;
    let mut output = WaitingSink::new(alloc, &counted, &counted, 0, &counted)?;
    let mut lanes = [
        Lane::new(
            WaitingSource::new(LOOK_BESIDE, &one_reads, &other_reads)?,
            WaitingSink::new(alloc, &one_writes, &other_writes, 1, &counted)?,
        ),
        Lane::new(
            WaitingSource::new(LOOK_BESIDE, &other_reads, &one_reads)?,
            WaitingSink::new(alloc, &other_writes, &one_writes, 1, &counted)?,
        ),
    ];
    let status = run(
        rt,
        alloc,
        &serve_words(alloc)?,
        &mut folder(alloc)?,
        &mut input,
        &mut output,
        &mut lanes,
    );
    format!(in alloc;
        "status {status}\n    editor {}\n    one lane {}\n    other lane {}",
        shown(alloc, output.bytes())?.as_str(),
        told_of(alloc, &lanes[0])?.as_str(),
        told_of(alloc, &lanes[1])?.as_str()
    )
}

/// The input gives each line when the reply to the one before was written.
fn replies_come_in_turn<R: Threads + Wait + Sync>(
    rt: &R,
    alloc: Global,
    command: &str,
    lines: &'static [Piece],
) -> Result<String, AllocError> {
    let (begun, replies) = (sign(alloc)?, sign(alloc)?);
    let mut input = WaitingSource::new(lines, &begun, &replies)?;
    let mut output = WaitingSink::new(alloc, &begun, &begun, 0, &replies)?;
    let mut lanes: Vec<WaitingLane> = Vec::new(alloc);
    let status = run(
        rt,
        alloc,
        &look_words(alloc, command)?,
        &mut folder(alloc)?,
        &mut input,
        &mut output,
        &mut lanes,
    );
    format!(in alloc;
        "status {status}\n    {}",
        shown(alloc, output.bytes())?.as_str()
    )
}

/// What came of the trial of this name. A wait ends after a number of turns, and the call fails then, so that a program whose lanes wait for the end of
/// the edits, or for one another, or for a lock that is held while a line is read, or that reads on before it writes a reply, tells another status.
pub fn waited<R: Threads + Wait + Sync>(
    rt: &R,
    alloc: Global,
    trial: &str,
) -> Result<String, AllocError> {
    match trial {
        "lanes_go_beside_edits" => lanes_go_beside_edits(rt, alloc),
        "lanes_go_beside_lanes" => lanes_go_beside_lanes(rt, alloc),
        "up_replies_in_turn" => replies_come_in_turn(rt, alloc, "up", WORDS_IN_TURN),
        "down_replies_in_turn" => replies_come_in_turn(rt, alloc, "down", WORDS_IN_TURN),
        "gloss_replies_in_turn" => replies_come_in_turn(rt, alloc, "gloss", TEXTS_IN_TURN),
        _ => String::from_str(alloc, "no such trial"),
    }
}
