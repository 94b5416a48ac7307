// How the answer of a call crosses where it is one value, and how counters do.
ghost use Rattle.column.specs.Lent.{the, ◌of_mut◌};
ghost use Rattle.std.specs.Prelude.{◌≡◌};
ghost use Rattle.site.specs.Answer.{answer_of};
ghost use Rattle.join.specs.Join.{counts, counts_of};
ghost use Rattle.vumlintel.specs.Crosses.{Crosses};

use join::Counters;
use site::Refusal;

// The value that a call answers, across the boundary.
pub(super) fn cross<T: Copy>(answer: Result<T, Refusal>, place: &mut T) -> u32
    ensures { Crosses (answer_of (λ value. value) answer) result (the (λ value. value) of_mut place) }
{
    match answer {
        Ok(value) => {
            *place = value;
            0
        }
        Err(refusal) => refusal.number(),
    }
}

// What a join counted, across the boundary.
pub(super) fn put_counters(
    counters: Counters,
    looks: &mut u64,
    distances: &mut u64,
    range_pairs: &mut u64,
)
    ensures { (the counts of_mut looks of_mut distances of_mut range_pairs).exit ≡ counts_of counters }
{
    *looks = counters.looks.0;
    *distances = counters.distances.0;
    *range_pairs = counters.range_pairs.0;
}
