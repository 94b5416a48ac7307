// The join by halves of two strips, on a list that may already hold entries; and the gap of two strips.
#![tactic(auto)]

mod gap;
mod visits;

ghost use Rattle.std.specs.Prelude.{◌≤◌};
ghost use Rattle.entry.specs.Results.{results, lent_results};
ghost use Rattle.entry.specs.Terms.{FinishAsked};
ghost use Rattle.sweep.specs.Terms.{NumberedLists, SweepAsked};
ghost use Rattle.halves.specs.Terms.{HalvedTo, HalvedStrips};
ghost use Rattle.halves.specs.Internal.{visited_of};

use entry::Queue;
pub use gap::gap_beyond;
use site::Spots;

// How many range pairs a join by halves visited.
#[derive(Clone, Copy)]
pub struct RangePairs(pub u64);

// What a join by halves answers: the entry count and the range pairs.
#[derive(Clone, Copy)]
pub struct Halved {
    pub entries: u32,
    pub range_pairs: RangePairs,
}

// The places from `from` up to, not including, `to`, and the box of their sites.
#[derive(Clone, Copy)]
struct Range {
    from: usize,
    to: usize,
    edges: [i32; 6],
}

// A half of a range, and the gap squared of its box and the other range's.
#[derive(Clone, Copy)]
struct Half {
    range: Range,
    gap: u64,
}

// Both halves of a range, in the order of their visits.
#[derive(Clone, Copy)]
struct Halves {
    sooner: Half,
    later: Half,
}

// What a join carries: its count, and the list under way.
#[derive(Clone, Copy)]
struct Tally {
    range_pairs: u64,
    queue: Queue,
}

// What a join answers after its last visit, with the list under way put in rank order.
fn answer(tally: Tally, distance: &mut [u64], first: &mut [u32], second: &mut [u32]) -> Halved
    requires { (tally.queue.count ≤ 4_096)
        × FinishAsked tally.queue (results distance.old first.old second.old) }
    ensures { let l = lent_results distance first second in
        HalvedTo (visited_of tally l.entry) l.entry l.exit result }
{
    entry::finish(distance, first, second, tally.queue);
    Halved {
        entries: tally.queue.count as u32,
        range_pairs: RangePairs(tally.range_pairs),
    }
}

// The join by halves of two strips. (02 k.)
pub fn run(
    a: Spots<'_>,
    b: Spots<'_>,
    a_from: usize,
    a_to: usize,
    b_from: usize,
    b_to: usize,
    k: usize,
    count: usize,
    distance: &mut [u64],
    first: &mut [u32],
    second: &mut [u32],
) -> Halved
    requires { SweepAsked a.x.now a.y.now a.height.now b.x.now b.y.now b.height.now a_from a_to b_from b_to k count
        (results distance.old first.old second.old) }
    ensures { let l = lent_results distance first second in
        let halved = HalvedStrips a_from a_to b_from b_to k count l.entry l.exit result in
        NumberedLists a.entry b.entry halved }
{
    let tally = visits::join(
        a, b, a_from, a_to, b_from, b_to, k, count, distance, first, second,
    );
    answer(tally, distance, first, second)
}
