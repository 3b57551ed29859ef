// Reading the lent texts by places: bytes, words, whole numbers, text values, lines. No text is copied; an answer names places.
#![tactic(auto)]

pub mod bytes;
pub mod lines;
pub mod numbers;
pub mod parts;
pub mod quotes;
pub mod words;

// What the bytes of a text are refused for, before it is read: its length, or the line of the first byte not allowed.
#[derive(Clone, Copy)]
pub enum BytesFault {
    TooLong,
    BadLine(usize),
}
