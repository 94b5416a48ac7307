// The box around some sites, least and greatest x, y and height, and the gap squared of two boxes.
#![tactic(auto)]

ghost use Rattle.std.specs.Prelude.{◌≡◌, true, [], ◌∷◌, ◌+◌, ◌<◌};
ghost use Rattle.std.specs.Int.Signed.{lt_z};
ghost use Rattle.order.specs.Lists.{all};
ghost use Rattle.order.specs.Terms.{Sorted};
ghost use Rattle.site.specs.Site.{within};
ghost use Rattle.boxes.specs.Box.{edges, box_around, range_gap, squared_box_gap};
ghost use Rattle.boxes.specs.Internal.{gap_along};

// The least and the greatest of a column.
fn edges(column: &[i32]) -> [i32; 2]
    ensures { result ≡ edges column.now }
{
    let [first, rest @ ..] = column else {
        return [0, 0];
    };
    let mut least = *first;
    let mut greatest = *first;
    for &c in rest {
        least = least.min(c);
        greatest = greatest.max(c);
    }
    [least, greatest]
}

// The same of a column that ascends: its ends.
fn sorted_edges(column: &[i32]) -> [i32; 2]
    requires { Sorted lt_z column.now }
    ensures { result ≡ edges column.now }
{
    match (column.first(), column.last()) {
        (Some(&least), Some(&greatest)) => [least, greatest],
        _ => [0, 0],
    }
}

// The box around the sites of three coordinate columns that ascend by x. (02 a: box; 02 l.)
pub fn box_around(x: &[i32], y: &[i32], height: &[i32]) -> [i32; 6]
    requires { Sorted lt_z x.now }
    ensures { result ≡ box_around (x.now ∷ y.now ∷ height.now ∷ []) }
{
    let [x_from, x_to] = sorted_edges(x);
    let [y_from, y_to] = edges(y);
    let [height_from, height_to] = edges(height);
    [x_from, x_to, y_from, y_to, height_from, height_to]
}

// The difference of two ranges, 0 where they touch or overlap. Neither side is jumped to: which one has a gap is hard to foretell.
fn range_gap(from: i32, to: i32, other_from: i32, other_to: i32) -> u64
    ensures { result ≡ range_gap from to other_from other_to }
{
    let above = site::rise(to, other_from);
    let below = site::rise(other_to, from);
    if above == 0 { below } else { above }
}

// The gap of two boxes along the coordinate whose edges stand at a place and behind it.
fn gap_along(p: [i32; 6], q: [i32; 6], at: usize) -> u64
    requires { at + 1 < 6 }
    ensures { result ≡ gap_along at p q }
{
    range_gap(p[at], p[at + 1], q[at], q[at + 1])
}

// The gap squared of two boxes whose edges are inside the limits.
pub fn squared_gap(p: [i32; 6], q: [i32; 6]) -> u64
    requires { (all within p ≡ true) × (all within q ≡ true) }
    ensures { result ≡ squared_box_gap p q }
{
    let x_gap = gap_along(p, q, 0);
    let y_gap = gap_along(p, q, 2);
    let height_gap = gap_along(p, q, 4);
    x_gap * x_gap + y_gap * y_gap + height_gap * height_gap
}
