// The box of a range of places, and the gap of two ranges.
ghost use Rattle.std.specs.Prelude.{◌≡◌, ◌≤◌, ◌<◌, ltb, length};
ghost use Rattle.std.specs.Int.Signed.{lt_z};
ghost use Rattle.order.specs.Terms.{Sorted};
ghost use Rattle.boxes.specs.Box.{box_of};
ghost use Rattle.sweep.specs.Strip.{strip, sites_of};
ghost use Rattle.sweep.specs.Terms.{NumberedLists};
ghost use Rattle.halves.specs.Gap.{squared_strip_gap};
ghost use Rattle.halves.specs.Terms.{SomeStrip};
ghost use Rattle.halves.specs.Internal.{range_sites, box_across};

use site::Spots;

// The box of a range of places.
pub(super) fn box_of(x: &[i32], y: &[i32], height: &[i32], from: usize, to: usize) -> [i32; 6]
    requires { SomeStrip x.now y.now height.now from to }
    ensures { let sites = range_sites x.now y.now height.now from to in
        result ≡ box_of (sites_of sites) }
{
    boxes::box_around(&x[from..to], &y[from..to], &height[from..to])
}

// The box of a range of places by its x alone, the other edges 0.
fn box_across(x: &[i32], from: usize, to: usize) -> [i32; 6]
    requires { Sorted lt_z x.now × ((from < to) × (to ≤ length x.now)) }
    ensures { result ≡ box_across x.now from to }
{
    boxes::box_around(&x[from..to], &x[..0], &x[..0])
}

// The square of the gap of two ranges of places, such as two strips.
fn squared_gap(
    a: Spots<'_>,
    b: Spots<'_>,
    a_from: usize,
    a_to: usize,
    b_from: usize,
    b_to: usize,
) -> u64
    requires { SomeStrip a.x.now a.y.now a.height.now a_from a_to
        × SomeStrip b.x.now b.y.now b.height.now b_from b_to }
    ensures { NumberedLists a.entry b.entry (λ p q.
        result ≡ squared_strip_gap (strip a_from a_to p) (strip b_from b_to q)) }
{
    boxes::squared_gap(
        box_of(a.x, a.y, a.height, a_from, a_to),
        box_of(b.x, b.y, b.height, b_from, b_to),
    )
}

// Whether the gap squared of two ranges of places is greater than a limit. Along x it is known at once, and often enough.
pub fn gap_beyond(
    a: Spots<'_>,
    b: Spots<'_>,
    a_from: usize,
    a_to: usize,
    b_from: usize,
    b_to: usize,
    limit: u64,
) -> bool
    requires { SomeStrip a.x.now a.y.now a.height.now a_from a_to
        × SomeStrip b.x.now b.y.now b.height.now b_from b_to }
    ensures { NumberedLists a.entry b.entry (λ p q.
        result ≡ ltb limit (squared_strip_gap (strip a_from a_to p) (strip b_from b_to q))) }
{
    let across = boxes::squared_gap(box_across(a.x, a_from, a_to), box_across(b.x, b_from, b_to));
    limit < across || limit < squared_gap(a, b, a_from, a_to, b_from, b_to)
}
