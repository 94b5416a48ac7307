// Campaigns of strip jobs, one of each customer, on one grid: preparing, opening, a smaller K, a job, status.
#![tactic(auto)]

pub mod calls;
mod ends;
pub mod jobs;
mod lowering;
mod marks;
mod opening;
mod preparing;
pub mod soundness;
mod totals;

use customers::Grid;
use join::Counters;

// Where a strip starts and ends.
#[derive(Clone, Copy)]
struct Strip {
    from: usize,
    to: usize,
}

// How a job ended.
#[derive(Clone, Copy)]
pub enum Outcome {
    Swept(Counters),
    Skipped,
}

// What a job answers: the grid, and how the job ended.
#[derive(Clone, Copy)]
pub struct JobDone {
    pub grid: Grid,
    pub outcome: Outcome,
}

// How far a campaign is: jobs settled, jobs in all, entries and K.
#[derive(Clone, Copy)]
pub struct Status {
    pub settled: u32,
    pub jobs: u32,
    pub entries: u32,
    pub k: u32,
}
