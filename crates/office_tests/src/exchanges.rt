//! What is sent, with what comes back for it.
use crate::http::bytes_of;
use lei_values::{Bytes, List, NoMemory};
use std::alloc::Global;

/// What is sent, and what comes back, in the letters of [`bytes_of`].
pub type Exchange = (&'static str, &'static str);

/// The most bytes that a read or a write takes in these tests.
pub const MOST: usize = 7;

/// Everything that is sent.
pub fn all_sent(alloc: Global, exchanges: &[Exchange]) -> Result<Bytes, NoMemory> {
    let mut all = Vec::new(alloc);
    for exchange in exchanges {
        let (sent, _) = *exchange;
        all.extend_from_slice(bytes_of(alloc, sent)?.as_slice())?;
    }
    Ok(Bytes::from(all))
}

/// The replies to what is complete within this many bytes that were read.
pub fn replies_within(
    alloc: Global,
    exchanges: &[Exchange],
    read: usize,
) -> Result<Vec<u8>, NoMemory> {
    let mut replies = Vec::new(alloc);
    let mut end: usize = 0;
    for exchange in exchanges {
        let (sent, reply) = *exchange;
        end = end.saturating_add(bytes_of(alloc, sent)?.len());
        if end <= read {
            replies.extend_from_slice(bytes_of(alloc, reply)?.as_slice())?;
        }
    }
    Ok(replies)
}

/// How many calls it takes to read this many bytes, at most `most` in each, and to see their end.
pub fn reads_of(bytes: usize, most: usize) -> u64 {
    match bytes.checked_div(most) {
        Some(whole) if whole.saturating_mul(most) == bytes => (whole as u64).saturating_add(1),
        Some(whole) => (whole as u64).saturating_add(2),
        None => 0,
    }
}

/// The list of one number.
pub fn only(alloc: Global, number: u64) -> Result<List<u64>, NoMemory> {
    let mut numbers = Vec::new(alloc);
    numbers.push(number)?;
    Ok(List::from(numbers))
}
