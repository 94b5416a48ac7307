// The sums of what jobs counted, each counter alone.
ghost use Rattle.std.specs.Prelude.{◌≡◌};
ghost use Rattle.join.specs.Join.{counts, no_counts, counts_of};
ghost use Rattle.campaign.specs.Calls.{counts_by};
ghost use Rattle.batch.specs.Internal.{skipped_by, SumsWith, SumsFit};

use super::Sums;
use campaign::Outcome;
use halves::RangePairs;
use join::Counters;
use sweep::{Distances, Looks};

// Counters of these numbers.
fn counters(looks: u64, distances: u64, range_pairs: u64) -> Counters
    ensures { counts_of result ≡ counts looks distances range_pairs }
{
    Counters {
        looks: Looks(looks),
        distances: Distances(distances),
        range_pairs: RangePairs(range_pairs),
    }
}

// The sums of no job.
pub(super) fn no_sums() -> Sums
    ensures { (result.skipped ≡ 0) × (counts_of result.counters ≡ no_counts) }
{
    Sums {
        skipped: 0,
        counters: counters(0, 0, 0),
    }
}

// What a job counted; nothing where it was skipped.
#[tactic(auto, unfolding(campaign::specs::Calls::counts_by))]
fn counted(outcome: Outcome) -> Counters
    ensures { counts_of result ≡ counts_by outcome }
{
    match outcome {
        Outcome::Swept(c) => c,
        Outcome::Skipped => counters(0, 0, 0),
    }
}

// 1 for a job that was skipped.
#[tactic(auto, unfolding(crate::specs::Internal::skipped_by))]
fn skipped(outcome: Outcome) -> u32
    ensures { result ≡ skipped_by outcome }
{
    match outcome {
        Outcome::Skipped => 1,
        Outcome::Swept(_) => 0,
    }
}

// The sums with one job more.
pub(super) fn sums_with(sums: Sums, outcome: Outcome) -> Sums
    requires { SumsFit sums outcome }
    ensures { SumsWith sums outcome result }
{
    let before = sums.counters;
    let more = counted(outcome);
    Sums {
        skipped: sums.skipped + skipped(outcome),
        counters: counters(
            before.looks.0 + more.looks.0,
            before.distances.0 + more.distances.0,
            before.range_pairs.0 + more.range_pairs.0,
        ),
    }
}
