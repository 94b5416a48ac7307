// Cut ends of a list: whether they are lawful, or those of a grid, the strip that holds a place, and the slots that keep them.
ghost use Rattle.std.specs.Prelude.{◌≡◌, ◌&&◌, ◌≤◌, ◌<◌, length, take};
ghost use Rattle.campaign.specs.Grid.{lawful_ends, same_ends, strip_holding};
ghost use Rattle.campaign.specs.Calls.{slots};
ghost use Rattle.campaign.specs.Terms.{lawful_slots};
ghost use Rattle.campaign.specs.Internal.{strip_from, strip_to, StripOf};

use super::Strip;

// Whether cut ends are lawful for a list of `n` sites.
pub(super) fn lawful(n: usize, ends: &[u32]) -> bool
    ensures { result ≡ lawful_ends n ends.now }
{
    if 32 < ends.len() {
        return false;
    }
    let mut last = 0;
    for &end in ends {
        if end <= last {
            return false;
        }
        last = end;
    }
    last as usize == n
}

// Whether the cut ends of two lists of `n` and `m` sites are lawful.
pub(super) fn lawful_cuts(n: usize, m: usize, first_ends: &[u32], second_ends: &[u32]) -> bool
    ensures { result ≡ (lawful_ends n first_ends.now && lawful_ends m second_ends.now) }
{
    lawful(n, first_ends) && lawful(m, second_ends)
}

// Whether cut ends are those in the slots in use.
#[tactic(auto, unfolding(crate::specs::Grid::same_ends))]
pub(super) fn same(used: u32, slots: [u32; 32], ends: &[u32]) -> bool
    requires { length ends.now ≤ 32 }
    ensures { result ≡ same_ends used slots ends.now }
{
    used as usize == ends.len() && &slots[..ends.len()] == ends
}

// Whether at most 32 slots are in use, and the ends in them are lawful.
#[tactic(auto, unfolding(crate::specs::Terms::lawful_slots))]
pub(super) fn lawful_slots(n: usize, slots: [u32; 32], used: u32) -> bool
    ensures { result ≡ lawful_slots n used slots }
{
    used <= 32 && lawful(n, &slots[..used as usize])
}

// The strip that holds a place: how many ends are at most the place. A filter's count would look at one end at a time.
pub(super) fn holding(ends: &[u32], place: u32) -> usize
    ensures { result ≡ strip_holding ends.now place }
{
    let mut before = 0;
    for &end in ends {
        if end <= place {
            before += 1;
        }
    }
    before
}

// The ends in the 32 slots of a campaign.
pub(super) fn in_slots(ends: &[u32]) -> [u32; 32]
    requires { length ends.now ≤ 32 }
    ensures { result ≡ slots ends.now }
{
    let mut kept = [0; 32];
    kept[..ends.len()].copy_from_slice(ends);
    kept
}

// Where a strip starts.
fn from(ends: &[u32], s: usize) -> u32
    requires { s < length ends.now }
    ensures { result ≡ strip_from ends.now s }
{
    if s == 0 { 0 } else { ends[s - 1] }
}

// Where a strip ends.
#[tactic(auto, unfolding(crate::specs::Internal::strip_to))]
fn to(ends: &[u32], s: usize) -> u32
    requires { s < length ends.now }
    ensures { result ≡ strip_to ends.now s }
{
    ends[s]
}

// Where a strip starts and ends, by the slots in use.
pub(super) fn strip(slots: [u32; 32], used: u32, s: u32) -> Strip
    requires { (used ≤ 32) × (s < used) }
    ensures { StripOf (take used slots) s result }
{
    let ends = &slots[..used as usize];
    Strip {
        from: from(ends, s as usize) as usize,
        to: to(ends, s as usize) as usize,
    }
}
