// The text for the entries in result columns.
ghost use Rattle.std.specs.Prelude.{◌≡◌, true, suc, ◌+◌, ◌*◌, ◌≤◌, ◌<◌, length};
ghost use Rattle.entry.specs.Results.{results, entries_of, room_for};
ghost use Rattle.entry.specs.Terms.{entry_at};
ghost use Rattle.listing.specs.Listing.{entry_lines};
ghost use Rattle.listing.specs.Internal.{entry_line, number_at, entries_text, Puts};

use super::line;

// The number at a place of a column, 0 past its end.
fn number_at(numbers: &[u32], place: u32) -> u32
    ensures { result ≡ number_at numbers.now place }
{
    numbers.get(place as usize).copied().unwrap_or(0)
}

// Writes the line of the entry at a place of the result columns: the position past it.
fn put_entry_at(
    an: &[u32],
    bn: &[u32],
    distance: &[u64],
    first: &[u32],
    second: &[u32],
    i: usize,
    out: &mut [u8],
    at: usize,
) -> usize
    requires i_in_bounds { (i < length distance.now) × (i < length first.now) × (i < length second.now) }
    requires at_in_bounds { at + 84 ≤ length out.old }
    ensures { let e = entry_at (results distance.now first.now second.now) i in
        let a = number_at an.now e.first in
        let b = number_at bn.now e.second in
        Puts at (entry_line (suc i) e.distance a b) out result }
{
    let a = number_at(an, first[i]);
    let b = number_at(bn, second[i]);
    line::put_entry(out, at, i as u64 + 1, distance[i], a, b)
}

// Writes the lines of the first `count` entries: the position past them.
fn put_entries(
    an: &[u32],
    bn: &[u32],
    distance: &[u64],
    first: &[u32],
    second: &[u32],
    count: usize,
    out: &mut [u8],
    at: usize,
) -> usize
    requires second_value { room_for count (results distance.now first.now second.now) ≡ true }
    requires count_in_bounds { at + 84 * count ≤ length out.old }
    ensures { let l = entries_of count (results distance.now first.now second.now) in
        Puts at (entry_lines (number_at an.now) (number_at bn.now) 1 l) out result }
{
    let mut next = at;
    for i in 0..count {
        next = put_entry_at(an, bn, distance, first, second, i, out, next);
    }
    next
}

// Writes the text for `count` of `total` pairs of two lists whose numbers are lent: the position past it.
pub(super) fn put_text(
    an: &[u32],
    bn: &[u32],
    distance: &[u64],
    first: &[u32],
    second: &[u32],
    count: usize,
    total: u64,
    out: &mut [u8],
) -> usize
    requires second_value { room_for count (results distance.now first.now second.now) ≡ true }
    requires count_in_bounds { 51 + 84 * count ≤ length out.old }
    ensures { let l = entries_of count (results distance.now first.now second.now) in
        Puts 0 (entries_text an.now bn.now total l) out result }
{
    let next = line::put_heading(out, 0, count as u64, total);
    put_entries(an, bn, distance, first, second, count, out, next)
}
