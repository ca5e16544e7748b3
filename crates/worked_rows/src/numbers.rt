/// A size that is more than any row needs.
pub const WHOLE: usize = 10_000_000;

/// The three numbers of a value; 0 for what is none.
pub fn numbers(value: &str) -> [u64; 3] {
    let mut found = [0u64; 3];
    for (number, word) in found.iter_mut().zip(value.split(' ')) {
        *number = word.parse::<u64>().unwrap_or(0);
    }
    found
}

/// A size of a row.
pub fn size(number: u64) -> usize {
    usize::try_from(number).unwrap_or(WHOLE).min(WHOLE)
}
