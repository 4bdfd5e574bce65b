//! Codes from numbers.
use lei_values::{Bytes, NoMemory};
use std::alloc::Global;

/// The code whose first 18 characters are this number. Its last two are 98 minus the remainder modulo 97 of the number
/// followed by 00 (ISO 17442-1, ISO/IEC 7064).
pub fn code_of(alloc: Global, number: u32) -> Result<Bytes, NoMemory> {
    let front = u64::from(number) * 100;
    let code = front + (98 - front % 97);
    let text = format!(in alloc; "{code:020}")?;
    Bytes::copy_of(alloc, text.as_bytes())
}
