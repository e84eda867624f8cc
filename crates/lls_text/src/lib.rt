//! Texts as bytes: lines, the words of a line that blanks separate, numbers in digits, and bytes that come in pieces.
#![tactic(auto)]

mod digits;
mod lines;
mod waiting_bytes;
mod words;

pub use digits::digits_number;
pub use lines::{Lines, begins_with, is_blank_line};
pub use waiting_bytes::WaitingBytes;
pub use words::{Word, Words, is_blank};
