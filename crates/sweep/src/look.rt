// One look of a reference at a site of the other list.
ghost use Rattle.std.specs.Prelude.{◌≡◌, ◌<◌, ◌^◌, cond, pos, length, get_or, true};
ghost use Rattle.site.specs.Site.{within, gap, square, squared_distance};
ghost use Rattle.site.specs.SiteList.{site, raised_site};
ghost use Rattle.site.specs.Terms.{position_at, Coordinates};
ghost use Rattle.entry.specs.Entry.{entry};
ghost use Rattle.entry.specs.Results.{results, lent_results};
ghost use Rattle.entry.specs.Terms.{Queueing, Offered};
ghost use Rattle.sweep.specs.Terms.{spot};
ghost use Rattle.sweep.specs.Internal.{look_from, gone_on, LawfulLook, LookAsked, LookDone};

use super::{Looked, Reference, Tally};
use entry::{Entry, Queue};

// The squared x-difference of a reference and the site at a place of the other list.
fn squared_gap_at(reference: Reference, xs: &[i32], i: usize) -> u64
    requires { i < length xs.now }
    ensures { result ≡ square (gap reference.x (get_or xs.now i (pos 0))) }
{
    site::squared_gap(reference.x, xs[i])
}

// Their squared distance in the plane, which the height can only enlarge.
fn plane_distance_at(reference: Reference, xs: &[i32], ys: &[i32], i: usize) -> u64
    requires x_value { (within reference.x ≡ true) × (within reference.y ≡ true) }
    requires coordinates { Coordinates xs.now ys.now × (i < length xs.now) }
    ensures { let other = position_at xs.now ys.now i in
        result ≡ squared_distance (site reference.x reference.y 0) other }
{
    site::plane_distance(reference.x, reference.y, xs[i], ys[i])
}

// The squared distance of a reference and the site at a place of the other list.
fn squared_distance_at(reference: Reference, xs: &[i32], ys: &[i32], hs: &[i32], i: usize) -> u64
    requires { LawfulLook reference xs.now ys.now hs.now × (i < length xs.now) }
    ensures { let other = spot xs.now ys.now hs.now i in
        let site = raised_site reference.x reference.y 0 reference.height in
        result ≡ squared_distance site other.site }
{
    site::squared_distance(
        reference.x,
        reference.y,
        reference.height,
        xs[i],
        ys[i],
        hs[i],
    )
}

// A pair as an entry.
fn pair(distance: u64, first: u32, second: u32) -> Entry
    ensures { result ≡ entry distance first second }
{
    Entry {
        distance,
        first,
        second,
    }
}

// The list under way after a reference and the site at a place of the other list were offered to it as a pair. `offer` is
// called for each side of the pair, so that it is compiled apart from the scan's loop. It is called here, not in `look`,
// since the function that calls it clears the room for its answer where it begins: `look` did so at each site of a scan.
fn offered(
    reference: Reference,
    squared: u64,
    i: usize,
    k: usize,
    old: Queue,
    distance: &mut [u64],
    first: &mut [u32],
    second: &mut [u32],
) -> Queue
    requires { Queueing k old (results distance.old first.old second.old) × (i < 2 ^ 32) }
    ensures { let l = lent_results distance first second in
        let e = cond reference.swapped (entry squared i reference.place) (entry squared reference.place i) in
        Offered k e old l.entry l.exit result }
{
    let other = i as u32;
    if reference.swapped {
        let e = pair(squared, other, reference.place);
        return entry::offer(distance, first, second, k, old, e);
    }
    let e = pair(squared, reference.place, other);
    entry::offer(distance, first, second, k, old, e)
}

// A look that goes on, with the list under way as an offer left it, taken number by number: as one block it would stay
// in memory through the scan's loop.
fn gone_on(old: Tally, queue: Queue) -> Looked
    ensures { result ≡ gone_on old queue }
{
    let next = Queue {
        count: queue.count,
        last: queue.last,
        reach: queue.reach,
    };
    let mut tally = old;
    tally.queue = next;
    Looked {
        stopped: false,
        tally,
    }
}

// A look from a reference at the site of a place of the other list. It stops the scan where the x-difference squared is
// past the reach; otherwise the distance is worked out, and the pair takes its place by rank, where it can still enter and
// is no pair of co-sited cells. Where the distance in the plane is past the reach, the height is not read.
pub(super) fn look(
    reference: Reference,
    xs: &[i32],
    ys: &[i32],
    hs: &[i32],
    i: usize,
    k: usize,
    old: Tally,
    distance: &mut [u64],
    first: &mut [u32],
    second: &mut [u32],
) -> Looked
    requires { LookAsked reference xs.now ys.now hs.now i k old (results distance.old first.old second.old) }
    ensures { let l = lent_results distance first second in
        let candidate = look_from reference (spot xs.now ys.now hs.now i) in
        LookDone k candidate old l.entry l.exit result }
{
    let mut tally = old;
    tally.looks += 1;
    if tally.queue.reach < squared_gap_at(reference, xs, i) {
        return Looked {
            stopped: true,
            tally,
        };
    }
    tally.distances += 1;
    if tally.queue.reach < plane_distance_at(reference, xs, ys, i) {
        return Looked {
            stopped: false,
            tally,
        };
    }
    let squared = squared_distance_at(reference, xs, ys, hs, i);
    if tally.queue.reach < squared || squared == 0 {
        return Looked {
            stopped: false,
            tally,
        };
    }
    let next = offered(
        reference,
        squared,
        i,
        k,
        tally.queue,
        distance,
        first,
        second,
    );
    gone_on(tally, next)
}
