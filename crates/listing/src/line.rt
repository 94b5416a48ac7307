// The fields and lines of the text.
ghost use Rattle.std.specs.Prelude.{[], ◌∷◌, ◌++◌, ◌+◌, ◌≤◌, length};
ghost use Rattle.listing.specs.Decimal.{decimal};
ghost use Rattle.listing.specs.Listing.{refused_text};
ghost use Rattle.listing.specs.Internal.{entry_line, heading, Puts};

use super::digits;

// Writes some bytes: the position past them.
fn put_bytes(out: &mut [u8], at: usize, text: &[u8]) -> usize
    requires { at + length text.now ≤ length out.old }
    ensures { Puts at text.now out result }
{
    let next = at + text.len();
    out[at..next].copy_from_slice(text);
    next
}

// Writes a number in decimal digits and the byte after it: the position past them.
fn put_field(out: &mut [u8], at: usize, n: u64, after: u8) -> usize
    requires { at + 21 ≤ length out.old }
    ensures { Puts at (decimal n ++ (after ∷ [])) out result }
{
    let next = digits::put_decimal(out, at, n);
    out[next] = after;
    next + 1
}

// Writes the line of one entry: the position past it.
pub(super) fn put_entry(
    out: &mut [u8],
    at: usize,
    rank: u64,
    distance: u64,
    first: u32,
    second: u32,
) -> usize
    requires { at + 84 ≤ length out.old }
    ensures { Puts at (entry_line rank distance first second) out result }
{
    let past_rank = put_field(out, at, rank, 32);
    let past_distance = put_field(out, past_rank, distance, 32);
    let past_first = put_field(out, past_distance, first as u64, 32);
    put_field(out, past_first, second as u64, 10)
}

// Writes the first line: the position past it.
pub(super) fn put_heading(out: &mut [u8], at: usize, entries: u64, total: u64) -> usize
    requires { at + 51 ≤ length out.old }
    ensures { Puts at (heading entries total) out result }
{
    let past_pairs = put_bytes(out, at, b"pairs ");
    let past_entries = put_field(out, past_pairs, entries, 32);
    let past_of = put_bytes(out, past_entries, b"of ");
    put_field(out, past_of, total, 10)
}

// Writes a refusal: the position past it.
pub(super) fn put_refused(out: &mut [u8], at: usize, number: u32) -> usize
    requires { at + 29 ≤ length out.old }
    ensures { Puts at (refused_text number) out result }
{
    let past_refused = put_bytes(out, at, b"refused ");
    put_field(out, past_refused, number as u64, 10)
}
