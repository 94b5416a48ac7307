// One reference against sites of the other list, to the right or to the left.
ghost use Rattle.std.specs.Prelude.{◌≡◌, map, ◌+◌, ◌-◌};
ghost use Rattle.entry.specs.Entry.{apart};
ghost use Rattle.entry.specs.Results.{results, lent_results};
ghost use Rattle.sweep.specs.Scan.{scan};
ghost use Rattle.sweep.specs.Terms.{rightward};
ghost use Rattle.sweep.specs.Internal.{leftward, look_from, state_of, ScanAsked, Tallied};

use super::{Reference, Tally, look};

// A reference against the sites of a range of the other list, to the right, until a look stops it.
pub(super) fn scan_right(
    reference: Reference,
    xs: &[i32],
    ys: &[i32],
    hs: &[i32],
    from: usize,
    to: usize,
    k: usize,
    old: Tally,
    distance: &mut [u64],
    first: &mut [u32],
    second: &mut [u32],
) -> Tally
    requires { ScanAsked reference xs.now ys.now hs.now from to k old (results distance.old first.old second.old) }
    ensures { let l = lent_results distance first second in
        let run = rightward xs.now ys.now hs.now from (to - from) in
        let scanned = scan apart k (map (look_from reference) run) (state_of old l.entry) in
        Tallied k l.entry old.queue.count scanned.state l.exit result }
{
    let mut tally = old;
    for at in from..to {
        let l = look::look(reference, xs, ys, hs, at, k, tally, distance, first, second);
        tally = l.tally;
        if l.stopped {
            break;
        }
    }
    tally
}

// A reference against the other list's sites already taken, latest first, down to the left limit. The place where the
// scan ends, which the loop yields by `break`, is the new left limit: it stops at the site in front of that place, which is
// never looked at again.
pub(super) fn scan_left(
    reference: Reference,
    xs: &[i32],
    ys: &[i32],
    hs: &[i32],
    limit: usize,
    taken: usize,
    k: usize,
    old: Tally,
    distance: &mut [u64],
    first: &mut [u32],
    second: &mut [u32],
) -> Tally
    requires { ScanAsked reference xs.now ys.now hs.now limit taken k old (results distance.old first.old second.old) }
    ensures { let l = lent_results distance first second in
        let run = leftward xs.now ys.now hs.now limit (taken - limit) in
        let scanned = scan apart k (map (look_from reference) run) (state_of old l.entry) in
        Tallied k l.entry old.queue.count scanned.state l.exit result × (result.at + scanned.passed ≡ taken) }
{
    let mut at = taken;
    let mut tally = old;
    let stop = loop {
        if at == limit {
            break at;
        }
        let l = look::look(
            reference,
            xs,
            ys,
            hs,
            at - 1,
            k,
            tally,
            distance,
            first,
            second,
        );
        tally = l.tally;
        if l.stopped {
            break at;
        }
        at -= 1;
    };
    tally.at = stop;
    tally
}
