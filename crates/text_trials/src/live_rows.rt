use live_core::{Event, LiveState, Outcome};
use std::alloc::{AllocError, Global};

/// The first value.
const FIRST: char = 'a';

/// The event of a text, or None where it is none.
fn event_of(text: &str) -> Option<Event<char>> {
    let (kind, rest) = text.trim_ascii().split_once(' ')?;
    match kind {
        "publish" => Some(Event::Publish {
            next: rest.chars().next()?,
        }),
        "enter" => Some(Event::Enter {
            reader: rest.parse::<u32>().ok()?,
        }),
        "learn" => {
            let (reader, upto) = rest.split_once(' ')?;
            Some(Event::Learn {
                reader: reader.parse::<u32>().ok()?,
                upto: upto.parse::<u64>().ok()?,
            })
        }
        _ => None,
    }
}

/// The events of a row, or None where one of them is none.
fn events_of(alloc: Global, texts: &str) -> Result<Option<Vec<Event<char>>>, AllocError> {
    let mut events = Vec::new(alloc);
    for text in texts.split(',') {
        if text.trim_ascii().is_empty() {
            continue;
        }
        let Some(event) = event_of(text) else {
            return Ok(None);
        };
        events.push(event)?;
    }
    Ok(Some(events))
}

/// How an outcome is told.
fn said_of_outcome(alloc: Global, outcome: Outcome<char>) -> Result<String, AllocError> {
    match outcome {
        Outcome::Published { number } => format!(in alloc; "Published {number}"),
        Outcome::Answered { number, value } => format!(in alloc; "Answered {number} {value}"),
        Outcome::Learnt => String::from_str(alloc, "Learnt"),
        Outcome::NoReader => String::from_str(alloc, "NoReader"),
        Outcome::NotYet => String::from_str(alloc, "NotYet"),
        Outcome::NoRoom => String::from_str(alloc, "NoRoom"),
    }
}

/// How outcomes are told.
fn said_of_outcomes(alloc: Global, outcomes: &[Outcome<char>]) -> Result<String, AllocError> {
    if outcomes.is_empty() {
        return String::from_str(alloc, "nothing");
    }
    let mut said = String::new(alloc);
    for outcome in outcomes {
        let before = if said.is_empty() { "" } else { ", " };
        let outcome = said_of_outcome(alloc, *outcome)?;
        said.push_str(before)?;
        said.push_str(outcome.as_str())?;
    }
    Ok(said)
}

/// What comes of the events, one by one.
fn outcomes_by_steps(
    alloc: Global,
    readers: u32,
    room: u32,
    events: &[Event<char>],
) -> Result<Vec<Outcome<char>>, AllocError> {
    let mut state = LiveState::open(alloc, FIRST, readers, room)?;
    let mut outcomes = Vec::new(alloc);
    for event in events {
        outcomes.push(state.step(*event))?;
    }
    Ok(outcomes)
}

/// What comes of the events, as a list.
fn outcomes_at_once(
    alloc: Global,
    readers: u32,
    room: u32,
    events: &[Event<char>],
) -> Result<Vec<Outcome<char>>, AllocError> {
    let mut state = LiveState::open(alloc, FIRST, readers, room)?;
    state.run(alloc, events)
}

/// What comes of the events, and where it differs also what comes of them one by one.
fn said_of_events(
    alloc: Global,
    readers: u32,
    room: u32,
    events: &[Event<char>],
) -> Result<String, AllocError> {
    let by_steps = outcomes_by_steps(alloc, readers, room, events)?;
    let at_once = outcomes_at_once(alloc, readers, room, events)?;
    said_of_both(alloc, &by_steps, &at_once)
}

/// How outcomes are told, and those of steps where they differ.
fn said_of_both(
    alloc: Global,
    by_steps: &[Outcome<char>],
    at_once: &[Outcome<char>],
) -> Result<String, AllocError> {
    let mut said = said_of_outcomes(alloc, at_once)?;
    if by_steps != at_once {
        said.push_str("; one by one ")?;
        said.push_str(said_of_outcomes(alloc, by_steps)?.as_str())?;
    }
    Ok(said)
}

/// The number of readers and the room of a row.
fn sizes_of(text: &str) -> Option<(u32, u32)> {
    let (readers, room) = text.trim_ascii().split_once(' ')?;
    Some((readers.parse::<u32>().ok()?, room.parse::<u32>().ok()?))
}

/// What came of a row, or None where it is no such row.
pub fn said_of_row(alloc: Global, row: &str) -> Result<Option<String>, AllocError> {
    let (sizes, texts) = row.split_once('|').unwrap_or((row, ""));
    let Some((readers, room)) = sizes_of(sizes) else {
        return Ok(None);
    };
    let Some(events) = events_of(alloc, texts)? else {
        return Ok(None);
    };
    Ok(Some(said_of_events(alloc, readers, room, &events)?))
}
