// The case listing: decimal digits, and the text for an input of K and a site file.
#![tactic(auto)]

mod body;
mod cases;
mod digits;
mod input;
mod line;

pub use cases::list_cases;

// Bytes enough for any listing: a first line of at most 51, and 4,096 lines of at most 84.
pub const ROOM: usize = 344115;
