// The two sweeps over two strips, on a list that may already hold entries.
#![tactic(auto)]

mod count;
mod look;
mod scan;
mod sweeps;

ghost use Rattle.std.specs.Prelude.{◌≤◌};
ghost use Rattle.entry.specs.Results.{results, lent_results};
ghost use Rattle.entry.specs.Terms.{FinishAsked};
ghost use Rattle.sweep.specs.Terms.{NumberedLists, SweepAsked, SweptTo, SweptStrips};
ghost use Rattle.sweep.specs.Internal.{state_of};

pub use count::count_pairs;
use entry::Queue;
use site::Spots;

// How many looks a sweep made.
#[derive(Clone, Copy)]
pub struct Looks(pub u64);

// How many distances a sweep worked out.
#[derive(Clone, Copy)]
pub struct Distances(pub u64);

// The two ways to sweep.
#[derive(Clone, Copy)]
pub enum Way {
    Classic,
    ReverseRun,
}

// What a sweep answers: the entry count, the looks and the distances.
#[derive(Clone, Copy)]
pub struct Swept {
    pub entries: u32,
    pub looks: Looks,
    pub distances: Distances,
}

// A reference: its coordinates, its place, and whether it is the second list's.
#[derive(Clone, Copy)]
struct Reference {
    x: i32,
    y: i32,
    height: i32,
    place: u32,
    swapped: bool,
}

// What a sweep carries: where the last scan to the left ended, both counters, and the list under way.
#[derive(Clone, Copy)]
struct Tally {
    at: usize,
    looks: u64,
    distances: u64,
    queue: Queue,
}

// What a look leaves: whether it stopped the scan, and the tally.
#[derive(Clone, Copy)]
struct Looked {
    stopped: bool,
    tally: Tally,
}

// What a sweep answers after its last scan, with the list under way put in rank order.
fn answer(tally: Tally, distance: &mut [u64], first: &mut [u32], second: &mut [u32]) -> Swept
    requires { (tally.queue.count ≤ 4_096)
        × FinishAsked tally.queue (results distance.old first.old second.old) }
    ensures { let l = lent_results distance first second in
        SweptTo (state_of tally l.entry) l.entry l.exit result }
{
    entry::finish(distance, first, second, tally.queue);
    Swept {
        entries: tally.queue.count as u32,
        looks: Looks(tally.looks),
        distances: Distances(tally.distances),
    }
}

// The sweep named.
pub fn run(
    way: Way,
    a: Spots<'_>,
    b: Spots<'_>,
    a_from: usize,
    a_to: usize,
    b_from: usize,
    b_to: usize,
    k: usize,
    count: usize,
    distance: &mut [u64],
    first: &mut [u32],
    second: &mut [u32],
) -> Swept
    requires { SweepAsked a.x.now a.y.now a.height.now b.x.now b.y.now b.height.now a_from a_to b_from b_to k count
        (results distance.old first.old second.old) }
    ensures { let l = lent_results distance first second in
        let swept = SweptStrips way a_from a_to b_from b_to k count l.entry l.exit result in
        NumberedLists a.entry b.entry swept }
{
    // Theorems name the way, and each is compiled into loops of its own: a closure would be called in them.
    let tally = match way {
        Way::Classic => sweeps::classic(
            a.x, a.y, a.height, b.x, b.y, b.height, a_from, a_to, b_from, b_to, k, count, distance,
            first, second,
        ),
        Way::ReverseRun => sweeps::reverse_run(
            a, b, a_from, a_to, b_from, b_to, k, count, distance, first, second,
        ),
    };
    answer(tally, distance, first, second)
}
