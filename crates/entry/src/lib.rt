// An entry of a result list, its rank, the three result columns, and a list under way in them.
#![tactic(auto)]

mod heap;
mod queues;

ghost use Rattle.std.specs.Prelude.{◌≡◌, ◌<◌, length};
ghost use Rattle.entry.specs.Entry.{rank_before, rank_compare, k_up_to, lawful_k};
ghost use Rattle.entry.specs.Results.{results, room_for};
ghost use Rattle.entry.specs.Terms.{entry_at};

pub use heap::put;
pub use queues::{finish, offer, start};

// A pair with its squared distance.
#[derive(Clone, Copy)]
pub struct Entry {
    pub distance: u64,
    pub first: u32,
    pub second: u32,
}

// A list under way in the result columns: how many entries it has, where its last by rank stands once it is full (at
// the end while none has come in, else at place 0), and the greatest squared distance at which a pair can still enter.
#[derive(Clone, Copy)]
pub struct Queue {
    pub count: usize,
    pub last: usize,
    pub reach: u64,
}

// Where one entry stands to another by rank. It stands in place of std's `Ordering` since the laws of `rank_compare` speak of
// it, and a C export.
#[derive(Clone, Copy)]
pub enum Ordering {
    Before,
    Same,
    After,
}

// Compares two entries without a jump. Each number is tested for less and for greater, 0 or 1; the distance weighs 4,
// more than both places together, the first place 2 and the second 1, so that the first number that differs decides.
// Tuples are compared number by number, with jumps.
pub fn compare(a: Entry, b: Entry) -> Ordering
    ensures { result ≡ rank_compare a b }
{
    let less = 4 * (a.distance < b.distance) as u8
        + 2 * (a.first < b.first) as u8
        + (a.second < b.second) as u8;
    let greater = 4 * (a.distance > b.distance) as u8
        + 2 * (a.first > b.first) as u8
        + (a.second > b.second) as u8;
    if less > greater {
        return Ordering::Before;
    }
    if less < greater {
        return Ordering::After;
    }
    Ordering::Same
}

// Whether one entry comes before another by rank.
pub fn before(a: Entry, b: Entry) -> bool
    ensures { result ≡ rank_before a b }
{
    matches!(compare(a, b), Ordering::Before)
}

// Whether K is a number from 1 to a greatest one.
pub fn k_up_to(most: u32, k: u32) -> bool
    ensures { result ≡ k_up_to most k }
{
    (1..=most).contains(&k)
}

// Whether K is 1 to 4,096.
pub fn lawful_k(k: u32) -> bool
    ensures { result ≡ lawful_k k }
{
    k_up_to(4_096, k)
}

// Whether no column is shorter than `k`.
pub fn room(k: usize, distance: &[u64], first: &[u32], second: &[u32]) -> bool
    ensures { result ≡ room_for k (results distance.now first.now second.now) }
{
    k <= distance.len() && k <= first.len() && k <= second.len()
}

// The entry at a place of the columns; numbers past a column's end are 0.
pub fn entry_at(distance: &[u64], first: &[u32], second: &[u32], i: usize) -> Entry
    ensures { result ≡ entry_at (results distance.now first.now second.now) i }
{
    Entry {
        distance: column::get(distance, i, 0),
        first: column::get(first, i, 0),
        second: column::get(second, i, 0),
    }
}

// The entry at a place that all three columns have.
fn entry_inside(distance: &[u64], first: &[u32], second: &[u32], i: usize) -> Entry
    requires { (i < length distance.now) × (i < length first.now) × (i < length second.now) }
    ensures { result ≡ entry_at (results distance.now first.now second.now) i }
{
    Entry {
        distance: distance[i],
        first: first[i],
        second: second[i],
    }
}
