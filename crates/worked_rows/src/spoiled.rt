use std::alloc::{AllocError, Global};

/// The bytes that are put in place of others, one after another.
const BYTES: [u8; 8] = [b' ', b'\n', b';', b'%', b'"', b'@', 0, 0xFF];

/// A file of a row, counted from 0, with another content than its own.
#[derive(Drop)]
pub struct Spoiled {
    /// Which file.
    pub file: usize,
    /// The other content.
    pub content: Vec<u8>,
}

/// How a content is spoiled.
#[derive(Clone, Copy)]
pub enum Way {
    /// It is cut off at a place.
    Front,
    /// The byte at the place is another one.
    Change,
}

/// A file with a spoiled content. Places are spread evenly over the content, as many as there are times.
pub fn spoil(
    alloc: Global,
    file: usize,
    content: &[u8],
    way: Way,
    time: usize,
    times: usize,
) -> Result<Spoiled, AllocError> {
    let place = place_of(content.len(), time, times);
    let content = match way {
        Way::Front => front(alloc, content, place)?,
        Way::Change => changed(alloc, content, place, time)?,
    };
    Ok(Spoiled { file, content })
}

/// The place of a time, among so many, in a content of this length.
fn place_of(length: usize, time: usize, times: usize) -> usize {
    time.saturating_mul(length).checked_div(times).unwrap_or(0)
}

/// The bytes before a place.
fn front(alloc: Global, content: &[u8], place: usize) -> Result<Vec<u8>, AllocError> {
    Vec::from_slice(alloc, &content[..place.min(content.len())])
}

/// The content with another byte at a place.
fn changed(
    alloc: Global,
    content: &[u8],
    place: usize,
    time: usize,
) -> Result<Vec<u8>, AllocError> {
    let mut bytes = Vec::from_slice(alloc, content)?;
    let other = BYTES[time % BYTES.len()];
    if let Some(byte) = bytes.get_mut(place) {
        *byte = other;
    }
    Ok(bytes)
}
