// The classic sweep and Reverse Run.
ghost use Rattle.std.specs.Prelude.{◌≡◌, ◌-◌, ◌≤◌, ◌<◌, length};
ghost use Rattle.site.specs.Terms.{Coordinates, Heights};
ghost use Rattle.entry.specs.Results.{results, lent_results, entries_of};
ghost use Rattle.sweep.specs.declared.Way.TheVariants.{Classic, ReverseRun};
ghost use Rattle.sweep.specs.Sweep.{sweep};
ghost use Rattle.sweep.specs.Terms.{rightward, SweepAsked};
ghost use Rattle.sweep.specs.Internal.{reference_at, first_next, Tallied};

use super::{Reference, Tally, scan};
use site::Spots;

// The site at a place of its columns as a reference.
fn reference_at(xs: &[i32], ys: &[i32], hs: &[i32], i: usize, swapped: bool) -> Reference
    requires { Coordinates xs.now ys.now × Heights (length xs.now) hs.now × (i < length xs.now) }
    ensures { result ≡ reference_at xs.now ys.now hs.now i swapped }
{
    Reference {
        x: xs[i],
        y: ys[i],
        height: hs[i],
        place: i as u32,
        swapped,
    }
}

// Whether the next reference is the first list's.
fn first_next(ax: &[i32], i: usize, a_to: usize, bx: &[i32], j: usize, b_to: usize) -> bool
    requires { (a_to ≤ length ax.now) × (b_to ≤ length bx.now) }
    ensures { result ≡ first_next ax.now i a_to bx.now j b_to }
{
    i < a_to && (b_to <= j || site::at_most(ax[i], bx[j]))
}

// Two fingers over the strips: the reference with the smaller x is scanned to the right, and its finger moves on.
// Both lists are lent as columns: as two structs they made this sweep slower by an eighth on long lists.
pub(super) fn classic(
    ax: &[i32],
    ay: &[i32],
    ah: &[i32],
    bx: &[i32],
    by: &[i32],
    bh: &[i32],
    a_from: usize,
    a_to: usize,
    b_from: usize,
    b_to: usize,
    k: usize,
    count: usize,
    distance: &mut [u64],
    first: &mut [u32],
    second: &mut [u32],
) -> Tally
    requires { SweepAsked ax.now ay.now ah.now bx.now by.now bh.now a_from a_to b_from b_to k count
        (results distance.old first.old second.old) }
    ensures { let l = lent_results distance first second in
        let a = rightward ax.now ay.now ah.now a_from (a_to - a_from) in
        let b = rightward bx.now by.now bh.now b_from (b_to - b_from) in
        Tallied k l.entry count (sweep Classic k a b (entries_of count l.entry)) l.exit result }
{
    let mut i = a_from;
    let mut j = b_from;
    let mut tally = Tally {
        at: 0,
        looks: 0,
        distances: 0,
        queue: entry::start(distance, count, k),
    };
    while i < a_to && j < b_to {
        if first_next(ax, i, a_to, bx, j, b_to) {
            let r = reference_at(ax, ay, ah, i, false);
            tally = scan::scan_right(r, bx, by, bh, j, b_to, k, tally, distance, first, second);
            i += 1;
        } else {
            let r = reference_at(bx, by, bh, j, true);
            tally = scan::scan_right(r, ax, ay, ah, i, a_to, k, tally, distance, first, second);
            j += 1;
        }
    }
    tally
}

// References in ascending x, each against the other list's sites already taken, latest first, down to its left limit.
pub(super) fn reverse_run(
    a: Spots<'_>,
    b: Spots<'_>,
    a_from: usize,
    a_to: usize,
    b_from: usize,
    b_to: usize,
    k: usize,
    count: usize,
    distance: &mut [u64],
    first: &mut [u32],
    second: &mut [u32],
) -> Tally
    requires { SweepAsked a.x.now a.y.now a.height.now b.x.now b.y.now b.height.now a_from a_to b_from b_to k count
        (results distance.old first.old second.old) }
    ensures { let l = lent_results distance first second in
        let p = rightward a.entry.x.now a.entry.y.now a.entry.height.now a_from (a_to - a_from) in
        let q = rightward b.entry.x.now b.entry.y.now b.entry.height.now b_from (b_to - b_from) in
        Tallied k l.entry count (sweep ReverseRun k p q (entries_of count l.entry)) l.exit result }
{
    let mut i = a_from;
    let mut j = b_from;
    let mut a_limit = a_from;
    let mut b_limit = b_from;
    let mut tally = Tally {
        at: 0,
        looks: 0,
        distances: 0,
        queue: entry::start(distance, count, k),
    };
    'references: loop {
        if first_next(a.x, i, a_to, b.x, j, b_to) {
            let r = reference_at(a.x, a.y, a.height, i, false);
            tally = scan::scan_left(
                r, b.x, b.y, b.height, b_limit, j, k, tally, distance, first, second,
            );
            b_limit = tally.at;
            i += 1;
            continue 'references;
        }
        if b_to <= j {
            break 'references;
        }
        let r = reference_at(b.x, b.y, b.height, j, true);
        tally = scan::scan_left(
            r, a.x, a.y, a.height, a_limit, i, k, tally, distance, first, second,
        );
        a_limit = tally.at;
        j += 1;
    }
    tally
}
