// How many pairs two strips have. Co-sited cells are counted by runs of sites at one x and y and by their heights, not pair
// by pair.
ghost use Rattle.std.specs.Prelude.{◌≡◌, ◌-◌, ◌<◌, length};
ghost use Rattle.site.specs.Site.{site_before};
ghost use Rattle.site.specs.Terms.{position_at, Coordinates};
ghost use Rattle.sweep.specs.Strip.{strip, pairs};
ghost use Rattle.sweep.specs.Terms.{rightward, NumberedLists, StripIn};
ghost use Rattle.sweep.specs.Internal.{PlaneStrip, RunAt, co_sited};

use site::Spots;

// Whether the position at one place comes before that at another.
fn before_at(ax: &[i32], ay: &[i32], i: usize, bx: &[i32], by: &[i32], j: usize) -> bool
    requires { Coordinates ax.now ay.now
        × Coordinates bx.now by.now
        × (i < length ax.now)
        × (j < length bx.now) }
    ensures { let a = position_at ax.now ay.now i in
        let b = position_at bx.now by.now j in
        result ≡ site_before a b }
{
    site::before(ax[i], ay[i], 0, bx[j], by[j], 0)
}

// The place past the run of sites at the position of place `from`, in a strip that ends at `to`. `partition_point` would
// search one slice, and a position stands in two columns.
fn run_end(xs: &[i32], ys: &[i32], from: usize, to: usize) -> usize
    requires { PlaneStrip xs.now ys.now from to × (from < to) }
    ensures { RunAt xs.now ys.now from to result }
{
    let mut known = from + 1;
    let mut end = to;
    while known < end {
        let middle = known + (end - known) / 2;
        if before_at(xs, ys, from, xs, ys, middle) {
            end = middle;
        } else {
            known = middle + 1;
        }
    }
    known
}

// How many pairs of one site each of two strips are co-sited: at one position, and at one height.
fn co_sited(
    a: Spots<'_>,
    b: Spots<'_>,
    a_from: usize,
    a_to: usize,
    b_from: usize,
    b_to: usize,
) -> u64
    requires { StripIn a.x.now a.y.now a.height.now a_from a_to
        × StripIn b.x.now b.y.now b.height.now b_from b_to }
    ensures { let p = rightward a.entry.x.now a.entry.y.now a.entry.height.now a_from (a_to - a_from) in
        let q = rightward b.entry.x.now b.entry.y.now b.entry.height.now b_from (b_to - b_from) in
        result ≡ co_sited p q }
{
    let mut count: u64 = 0;
    let mut i = a_from;
    let mut j = b_from;
    while i < a_to && j < b_to {
        if before_at(a.x, a.y, i, b.x, b.y, j) {
            i += 1;
        } else if before_at(b.x, b.y, j, a.x, a.y, i) {
            j += 1;
        } else {
            let p = run_end(a.x, a.y, i, a_to);
            let q = run_end(b.x, b.y, j, b_to);
            count += heights::equal_pairs(&a.height[i..p], &b.height[j..q]);
            i = p;
            j = q;
        }
    }
    count
}

// How many pairs two strips have.
pub fn count_pairs(
    a: Spots<'_>,
    b: Spots<'_>,
    a_from: usize,
    a_to: usize,
    b_from: usize,
    b_to: usize,
) -> u64
    requires { StripIn a.x.now a.y.now a.height.now a_from a_to
        × StripIn b.x.now b.y.now b.height.now b_from b_to }
    ensures { NumberedLists a.entry b.entry (λ p q.
        result ≡ length (pairs (strip a_from a_to p) (strip b_from b_to q))) }
{
    let all = ((a_to - a_from) as u64) * ((b_to - b_from) as u64);
    all - co_sited(a, b, a_from, a_to, b_from, b_to)
}
