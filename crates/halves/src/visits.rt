// The visits of pairs of ranges: each is dropped, offered or split. (02 k: join by halves.)
ghost use Rattle.std.specs.Prelude.{◌≡◌, true, ◌+◌, ◌≤◌, ◌<◌, ◌^◌, length};
ghost use Rattle.order.specs.Lists.{all};
ghost use Rattle.site.specs.Site.{within};
ghost use Rattle.entry.specs.Entry.{entry, apart};
ghost use Rattle.entry.specs.Results.{results, lent_results, entries_of};
ghost use Rattle.entry.specs.Terms.{queued, Queueing};
ghost use Rattle.sweep.specs.Scan.{taken};
ghost use Rattle.sweep.specs.Terms.{SweepAsked};
ghost use Rattle.halves.specs.Halves.{visited, halves};
ghost use Rattle.halves.specs.Terms.{SomeStrip};
ghost use Rattle.halves.specs.Internal.{
  range_sites,
  sites_in,
  RangeIn,
  gap_of,
  gap_to,
  HalfOf,
  HalvesOf,
  tally_of,
  visited_of,
  VisitedTo,
  expand_from,
  ExpandAsked,
};

use super::{Half, Halves, Range, Tally, gap};
use entry::{Entry, Queue};
use site::Spots;

// The gap squared of two boxes, the first list's first: `own` is the second list's where they are swapped.
fn gap_to(own: [i32; 6], other: [i32; 6], swapped: bool) -> u64
    requires { (all within own ≡ true) × (all within other ≡ true) }
    ensures { result ≡ gap_of swapped own other }
{
    if swapped {
        boxes::squared_gap(other, own)
    } else {
        boxes::squared_gap(own, other)
    }
}

// The range from place `from` up to, not including, place `to`, with its gap squared to another range's box.
fn half(
    x: &[i32],
    y: &[i32],
    height: &[i32],
    from: usize,
    to: usize,
    other: [i32; 6],
    swapped: bool,
) -> Half
    requires { SomeStrip x.now y.now height.now from to × (all within other ≡ true) }
    ensures { let l = range_sites x.now y.now height.now from to in
        HalfOf x.now y.now height.now (gap_to swapped other) l result }
{
    let edges = gap::box_of(x, y, height, from, to);
    Half {
        range: Range { from, to, edges },
        gap: gap_to(edges, other, swapped),
    }
}

// Both halves of a range, the one with the smaller gap first, the lower at equality.
fn halve(
    x: &[i32],
    y: &[i32],
    height: &[i32],
    range: Range,
    other: [i32; 6],
    swapped: bool,
) -> Halves
    requires { RangeIn x.now y.now height.now range
        × ((range.from + 2 ≤ range.to) × (all within other ≡ true)) }
    ensures { HalvesOf x.now y.now height.now (gap_to swapped other) range result }
{
    let middle = range.from + (range.to - range.from) / 2;
    let lower = half(x, y, height, range.from, middle, other, swapped);
    let upper = half(x, y, height, middle, range.to, other, swapped);
    if upper.gap < lower.gap {
        Halves {
            sooner: upper,
            later: lower,
        }
    } else {
        Halves {
            sooner: lower,
            later: upper,
        }
    }
}

// The four numbers of a tally: the range pairs, then the queue's count, last and reach.
fn numbers(tally: Tally) -> [u64; 4]
    ensures { (length result ≡ 4) × (tally_of result ≡ tally) }
{
    [
        tally.range_pairs,
        tally.queue.count as u64,
        tally.queue.last as u64,
        tally.queue.reach,
    ]
}

// The tally of its four numbers.
fn held(numbers: [u64; 4]) -> Tally
    ensures { result ≡ tally_of numbers }
{
    Tally {
        range_pairs: numbers[0],
        queue: Queue {
            count: numbers[1] as usize,
            last: numbers[2] as usize,
            reach: numbers[3],
        },
    }
}

// A pair of single sites takes its place by rank, unless the two cells are co-sited.
fn offer(
    i: usize,
    j: usize,
    squared: u64,
    k: usize,
    tally: &mut [u64; 4],
    distance: &mut [u64],
    first: &mut [u32],
    second: &mut [u32],
)
    requires tally_len { length tally.old ≡ 4 }
    requires i_bound { (i < 2 ^ 32)
        × ((j < 2 ^ 32) × Queueing k (tally_of tally.old).queue (results distance.old first.old second.old)) }
    ensures { let l = lent_results distance first second in
        let old = tally_of tally.old in
        let list = taken apart k (entry squared i j) (queued old.queue l.entry) in
        let s = visited list old.range_pairs in
        let new = tally.new in
        (length new ≡ 4) × VisitedTo k l.entry old.queue.count s l.exit (tally_of new) }
{
    if squared == 0 {
        return;
    }
    let e = Entry {
        distance: squared,
        first: i as u32,
        second: j as u32,
    };
    let next = entry::offer(distance, first, second, k, held(*tally).queue, e);
    tally[1] = next.count as u64;
    tally[2] = next.last as u64;
    tally[3] = next.reach;
}

// A pair of ranges that is not dropped: a pair of single sites is offered; any other splits the longer range, the first list's
// at equal length, and both halves are visited. A visit counts, and the pair is dropped where its gap squared is past the reach;
// it is made here, for half of all are dropped, and a call costs more than that. The tally is lent: returned, it would be copied
// through memory each time.
fn expand(
    ax: &[i32],
    ay: &[i32],
    ah: &[i32],
    bx: &[i32],
    by: &[i32],
    bh: &[i32],
    p: Range,
    q: Range,
    between: u64,
    k: usize,
    tally: &mut [u64; 4],
    distance: &mut [u64],
    first: &mut [u32],
    second: &mut [u32],
)
    requires tally_len { length tally.old ≡ 4 }
    requires expand_asked { ExpandAsked ax.now ay.now ah.now bx.now by.now bh.now p q between k (tally_of tally.old)
        (results distance.old first.old second.old) }
    ensures { let l = lent_results distance first second in
        let a = sites_in ax.now ay.now ah.now p in
        let b = sites_in bx.now by.now bh.now q in
        let old = tally_of tally.old in
        let expanded = expand_from k a b (visited_of old l.entry) in
        let new = tally.new in
        (length new ≡ 4) × VisitedTo k l.entry old.queue.count expanded l.exit (tally_of new) }
{
    let n = p.to - p.from;
    let m = q.to - q.from;
    if n + m == 2 {
        offer(p.from, q.from, between, k, tally, distance, first, second);
        return;
    }
    if m <= n {
        let Halves { sooner, later } = halve(ax, ay, ah, p, q.edges, false);
        let s = sooner.range;
        let t = later.range;
        tally[0] += 1;
        if sooner.gap <= tally[3] {
            expand(
                ax, ay, ah, bx, by, bh, s, q, sooner.gap, k, tally, distance, first, second,
            );
        }
        tally[0] += 1;
        if later.gap <= tally[3] {
            expand(
                ax, ay, ah, bx, by, bh, t, q, later.gap, k, tally, distance, first, second,
            );
        }
        return;
    }
    let Halves { sooner, later } = halve(bx, by, bh, q, p.edges, true);
    let s = sooner.range;
    let t = later.range;
    tally[0] += 1;
    if sooner.gap <= tally[3] {
        expand(
            ax, ay, ah, bx, by, bh, p, s, sooner.gap, k, tally, distance, first, second,
        );
    }
    tally[0] += 1;
    if later.gap <= tally[3] {
        expand(
            ax, ay, ah, bx, by, bh, p, t, later.gap, k, tally, distance, first, second,
        );
    }
}

// The visit of two whole strips; there is none where one is empty.
pub(super) fn join(
    a: Spots<'_>,
    b: Spots<'_>,
    a_from: usize,
    a_to: usize,
    b_from: usize,
    b_to: usize,
    k: usize,
    count: usize,
    distance: &mut [u64],
    first: &mut [u32],
    second: &mut [u32],
) -> Tally
    requires { SweepAsked a.x.now a.y.now a.height.now b.x.now b.y.now b.height.now a_from a_to b_from b_to k count
        (results distance.old first.old second.old) }
    ensures { let l = lent_results distance first second in
        let p = range_sites a.entry.x.now a.entry.y.now a.entry.height.now a_from a_to in
        let q = range_sites b.entry.x.now b.entry.y.now b.entry.height.now b_from b_to in
        VisitedTo k l.entry count (halves k p q (entries_of count l.entry)) l.exit result }
{
    let queue = entry::start(distance, count, k);
    let none = Tally {
        range_pairs: 0,
        queue,
    };
    if a_from == a_to || b_from == b_to {
        return none;
    }
    let own = gap::box_of(a.x, a.y, a.height, a_from, a_to);
    let other = gap::box_of(b.x, b.y, b.height, b_from, b_to);
    let between = boxes::squared_gap(own, other);
    let root = Tally {
        range_pairs: 1,
        ..none
    };
    if queue.reach < between {
        return root;
    }
    let p = Range {
        from: a_from,
        to: a_to,
        edges: own,
    };
    let q = Range {
        from: b_from,
        to: b_to,
        edges: other,
    };
    let mut tally = numbers(root);
    expand(
        a.x, a.y, a.height, b.x, b.y, b.height, p, q, between, k, &mut tally, distance, first,
        second,
    );
    held(tally)
}
