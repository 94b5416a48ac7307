// The three ways to join two strips, on a list that may already hold entries: the two sweeps, and the join by halves.
#![tactic(auto)]

ghost use Rattle.entry.specs.Results.{results, lent_results};
ghost use Rattle.sweep.specs.Terms.{NumberedLists, SweepAsked};
ghost use Rattle.join.specs.Terms.{JoinedStrips};

use halves::RangePairs;
use site::Spots;
use sweep::{Distances, Looks, Way};

// The three ways to join two strips: a sweep, or by halves. (01: sweep; 02 k: join by halves.)
#[derive(Clone, Copy)]
pub enum Join {
    Sweep(Way),
    Halves,
}

// What a join counted; what its way does not count is 0.
#[derive(Clone, Copy)]
pub struct Counters {
    pub looks: Looks,
    pub distances: Distances,
    pub range_pairs: RangePairs,
}

// What a join answers: the entry count and the counters.
#[derive(Clone, Copy)]
pub struct Joined {
    pub entries: u32,
    pub counters: Counters,
}

// The join named.
pub fn run(
    way: Join,
    a: Spots<'_>,
    b: Spots<'_>,
    a_from: usize,
    a_to: usize,
    b_from: usize,
    b_to: usize,
    k: usize,
    count: usize,
    distance: &mut [u64],
    first: &mut [u32],
    second: &mut [u32],
) -> Joined
    requires { SweepAsked a.x.now a.y.now a.height.now b.x.now b.y.now b.height.now a_from a_to b_from b_to k count
        (results distance.old first.old second.old) }
    ensures { let l = lent_results distance first second in
        let joined = JoinedStrips way a_from a_to b_from b_to k count l.entry l.exit result in
        NumberedLists a.entry b.entry joined }
{
    // Theorems name the way, and each is compiled into loops of its own: a closure would be called in them.
    match way {
        Join::Sweep(sweep) => {
            let swept = sweep::run(
                sweep, a, b, a_from, a_to, b_from, b_to, k, count, distance, first, second,
            );
            Joined {
                entries: swept.entries,
                counters: Counters {
                    looks: swept.looks,
                    distances: swept.distances,
                    range_pairs: RangePairs(0),
                },
            }
        }
        Join::Halves => {
            let halved = halves::run(
                a, b, a_from, a_to, b_from, b_to, k, count, distance, first, second,
            );
            Joined {
                entries: halved.entries,
                counters: Counters {
                    looks: Looks(0),
                    distances: Distances(0),
                    range_pairs: halved.range_pairs,
                },
            }
        }
    }
}
