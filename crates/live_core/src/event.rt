/// What happens to the published values and their readers.
#[derive(Clone, Copy, Debug, PartialEq, Eq)]
pub enum Event<V: Copy> {
    /// A value is published behind those that are there.
    Publish { next: V },
    /// A reader takes up the last published value. Readers are numbered from 0.
    Enter { reader: u32 },
    /// A reader is told that there are values up to this number.
    Learn { reader: u32, upto: u64 },
}

/// What came of an event.
#[derive(Clone, Copy, Debug, PartialEq, Eq)]
pub enum Outcome<V: Copy> {
    /// The value was published and has this number.
    Published { number: u64 },
    /// The reader has the last published value, which has this number.
    Answered { number: u64, value: V },
    /// The reader knows of the number.
    Learnt,
    /// There is no such reader. Nothing changed.
    NoReader,
    /// No value with this number was published. Nothing changed.
    NotYet,
    /// As many values were published as there is room for. Nothing changed.
    NoRoom,
}
