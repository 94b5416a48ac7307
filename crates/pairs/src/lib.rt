// The calls on two whole lists: the K list by any of the three ways, the distance list, and the forecast of its size.
#![tactic(auto)]

mod closest;
mod nearby;
mod partners;
mod window;

pub use closest::k_list;
use join::Counters;
pub use nearby::distance_list;
pub use partners::forecast;

// What a K list answers: the entry count and the counters.
#[derive(Clone, Copy)]
pub struct Listed {
    pub count: u32,
    pub counters: Counters,
}

// The places of a list from `left` up to, not including, `right`.
#[derive(Clone, Copy)]
struct Run {
    left: usize,
    right: usize,
}
