// The listing of an input.
ghost use Rattle.std.specs.Prelude.{◌≡◌, true, ◌≤◌, length};
ghost use Rattle.site.specs.SiteList.{columns, lent_plane, sites};
ghost use Rattle.column.specs.Column.{overwritten};
ghost use Rattle.entry.specs.Results.{results, room_for};
ghost use Rattle.site_file.specs.File.{count_in};
ghost use Rattle.listing.specs.Listing.{listing_text, listing};
ghost use Rattle.listing.specs.Internal.{file_text, Puts, Lawful, Grounded, Sized, FileLists};

use super::{ROOM, body, input, line};
use join::Join;
use site::SiteColumns;
use site_file::Which;
use sweep::Way;

// Writes the text for two lists of the plane, whose K list the result columns take: the position past it. They are lent with
// every height 0.
fn list_with(
    a: SiteColumns<'_>,
    b: SiteColumns<'_>,
    k: u32,
    distance: &mut [u64],
    first: &mut [u32],
    second: &mut [u32],
    out: &mut [u8],
) -> usize
    requires lawful { Lawful (columns a.x.now a.y.now a.number.now) (columns b.x.now b.y.now b.number.now) k out.old }
    requires grounded { Grounded a.x.now a.height.now × Grounded b.x.now b.height.now }
    requires second_value { room_for 4096 (results distance.old first.old second.old) ≡ true }
    ensures { let p = columns a.entry.x.now a.entry.y.now a.entry.number.now in
        let q = columns b.entry.x.now b.entry.y.now b.entry.number.now in
        Puts 0 (listing_text k (sites p) (sites q)) out result }
{
    let way = Join::Sweep(Way::ReverseRun);
    match pairs::k_list(way, a, b, k, distance, first, second) {
        Ok(listed) => {
            let n = a.x.len();
            let m = b.x.len();
            let p = a.spots();
            let q = b.spots();
            let total = sweep::count_pairs(p, q, 0, n, 0, m);
            let count = listed.count as usize;
            body::put_text(
                a.number, b.number, distance, first, second, count, total, out,
            )
        }
        Err(refusal) => line::put_refused(out, 0, refusal.number()),
    }
}

// Writes the text for two lists of the plane, of at most 4,000 sites each: the position past it. There is no heap, so the
// heights and the result columns are arrays of the greatest lengths.
fn list_columns(
    ax: &[i32],
    ay: &[i32],
    an: &[u32],
    bx: &[i32],
    by: &[i32],
    bn: &[u32],
    k: u32,
    out: &mut [u8],
) -> usize
    requires lawful { Lawful (columns ax.now ay.now an.now) (columns bx.now by.now bn.now) k out.old }
    requires ax_len_bound { (length ax.now ≤ 4_000) × (length bx.now ≤ 4_000) }
    ensures { let a = (lent_plane ax ay an).entry in
        let b = (lent_plane bx by bn).entry in
        Puts 0 (listing_text k (sites a) (sites b)) out result }
{
    let first_heights = [0i32; 4000];
    let second_heights = [0i32; 4000];
    let mut distance = [0u64; 4096];
    let mut first = [0u32; 4096];
    let mut second = [0u32; 4096];
    let a = SiteColumns {
        x: ax,
        y: ay,
        number: an,
        height: &first_heights[..ax.len()],
    };
    let b = SiteColumns {
        x: bx,
        y: by,
        number: bn,
        height: &second_heights[..bx.len()],
    };
    list_with(a, b, k, &mut distance, &mut first, &mut second, out)
}

// Reads both lists of a file into columns and writes their text: the position past it.
fn list_sites(
    file: &[u8],
    k: u32,
    ax: &mut [i32],
    ay: &mut [i32],
    an: &mut [u32],
    bx: &mut [i32],
    by: &mut [i32],
    bn: &mut [u32],
    out: &mut [u8],
) -> usize
    requires file_lists { FileLists file.now k out.old }
    requires file_bound { (count_in file.now Which.First ≤ 4_000) × (count_in file.now Which.Second ≤ 4_000) }
    requires sized { Sized (count_in file.now Which.First) (columns ax.old ay.old an.old) }
    requires sized_2 { Sized (count_in file.now Which.Second) (columns bx.old by.old bn.old) }
    ensures { Puts 0 (file_text k file.now) out result }
{
    input::read_sites(file, Which::First, ax, ay, an);
    input::read_sites(file, Which::Second, bx, by, bn);
    list_columns(ax, ay, an, bx, by, bn, k, out)
}

// Writes the text for a site file of at most 48,016 bytes: the position past it. There is no heap, so the columns are
// arrays of the greatest length.
fn list_file(file: &[u8], k: u32, out: &mut [u8]) -> usize
    requires { FileLists file.now k out.old × (length file.now ≤ 48016) }
    ensures { Puts 0 (file_text k file.now) out result }
{
    let n = site_file::count_in(file, Which::First) as usize;
    let m = site_file::count_in(file, Which::Second) as usize;
    let mut ax = [0i32; 4000];
    let mut ay = [0i32; 4000];
    let mut an = [0u32; 4000];
    let mut bx = [0i32; 4000];
    let mut by = [0i32; 4000];
    let mut bn = [0u32; 4000];
    list_sites(
        file,
        k,
        &mut ax[..n],
        &mut ay[..n],
        &mut an[..n],
        &mut bx[..m],
        &mut by[..m],
        &mut bn[..m],
        out,
    )
}

// The case listing of an input, K and a site file: the length of its text, which stands at the start of the buffer.
pub fn list_cases(input: &[u8], out: &mut [u8; ROOM]) -> usize
    ensures { let text = listing input.now in
        (result ≡ length text) × (out.new ≡ overwritten text out.old) }
{
    match input::input_refusal(input) {
        Ok(()) => {
            let k = site_file::word_at(input, 0);
            list_file(&input[4..], k, out)
        }
        Err(refusal) => line::put_refused(out, 0, refusal.number()),
    }
}
