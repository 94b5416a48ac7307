// The places of the other list whose x is within a limit of a reference's: both ends only move right.
ghost use Rattle.std.specs.Prelude.{◌≡◌, ◌-◌, ◌^◌, ◌<◌, ◌≤◌, length};
ghost use Rattle.pairs.specs.Internal.{offset, Rising, Skipped, Behind, RunOf};

use super::Run;

// How far a coordinate is right of the least `i32`.
#[tactic(auto, unfolding(crate::specs::Internal::offset, site::specs::Site::gap))]
pub(super) fn offset(x: i32) -> u64
    ensures { (result ≡ offset x) × (result < 2 ^ 32) }
{
    (x as i64 - i32::MIN as i64) as u64
}

// The first place from `from` on whose offset is `limit` or more.
fn skip_below(xs: &[i32], from: usize, limit: u64) -> usize
    requires { from ≤ length xs.now }
    ensures { Skipped xs.now from limit result }
{
    for i in from..xs.len() {
        if limit <= offset(xs[i]) {
            return i;
        }
    }
    xs.len()
}

// The run of a reference: from the run of the one before it, both ends only move right.
pub(super) fn next_run(a: &[i32], b: &[i32], i: usize, last: Run, e: u32) -> Run
    requires { (i < length a.now) × (Rising b.now) × (Behind a.now b.now e i last) }
    ensures { RunOf a.now b.now e i result }
{
    let x = offset(a[i]);
    let e = e as u64;
    Run {
        left: skip_below(b, last.left, x.saturating_sub(e)),
        right: skip_below(b, last.right, x + e + 1),
    }
}
