// The site file: writing two lists, reading a file, and consulting it site by site.
#![tactic(auto)]

mod consulting;
mod numbers;
mod reading;
mod writing;

pub use consulting::{consult, open, site_in};
pub use numbers::word_at;
pub use reading::{count_in, read};
pub use writing::write;

// Which of a file's two lists.
#[derive(Clone, Copy)]
pub enum Which {
    First,
    Second,
}

// What reading a file answers: both site counts.
#[derive(Clone, Copy)]
pub struct Counts {
    pub first: u32,
    pub second: u32,
}

// A site of a file: its x, y and number.
#[derive(Clone, Copy)]
pub struct FileSite {
    pub x: i32,
    pub y: i32,
    pub number: u32,
}

// A file with the starts of both its lists: its sites are read where they lie.
#[derive(Clone, Copy)]
pub struct Reader<'a> {
    pub file: &'a [u8],
    pub first: u32,
    pub second: u32,
}
