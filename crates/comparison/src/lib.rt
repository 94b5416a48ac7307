// The comparison of two entries alone, as a static library of its own: its object code is looked at for jumps, and the
// benchmark times it.
#![tactic(auto)]

ghost use Rattle.std.specs.Prelude.{◌≡◌};
ghost use Rattle.entry.specs.Entry.{entry, rank_compare};
ghost use Rattle.comparison.specs.Comparison.{ordering_number};

use entry::{Entry, Ordering};

// Where entry a stands to entry b by rank: 0 before, 1 same, 2 after. An entry is its squared distance, first place and
// second place.
#[unsafe(no_mangle)]
pub extern "C" fn compare_entries(ad: u64, ai: u32, aj: u32, bd: u64, bi: u32, bj: u32) -> u32
    ensures { result ≡ ordering_number (rank_compare (entry ad ai aj) (entry bd bi bj)) }
{
    let a = Entry {
        distance: ad,
        first: ai,
        second: aj,
    };
    let b = Entry {
        distance: bd,
        first: bi,
        second: bj,
    };
    match entry::compare(a, b) {
        Ordering::Before => 0,
        Ordering::Same => 1,
        Ordering::After => 2,
    }
}
