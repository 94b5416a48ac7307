// The distance list: all pairs of two lists within a limit, counted and then written.
ghost use Rattle.std.specs.Prelude.{◌≡◌, ◌*◌, ◌<◌, ◌≤◌, length};
ghost use Rattle.site.specs.Answer.{afterwards, answer_of, refusal_of};
ghost use Rattle.site.specs.SiteList.{list_of};
ghost use Rattle.site.specs.Terms.{Coordinates, Heights};
ghost use Rattle.sweep.specs.Terms.{spot};
ghost use Rattle.pairs.specs.DistanceList.{distance_refusal, distance_answer, distance_values};
ghost use Rattle.pairs.specs.Internal.{
  near,
  near_sites,
  row_pairs,
  lent_pairs,
  Reference,
  Room,
  Writes,
};

use super::{Run, window};
use site::{Refusal, SiteColumns, Spots};

// Whether a site is no more than `e` from a position, and not at it. A difference of y beyond `e` decides alone.
fn is_near(x: i32, y: i32, h: i32, b: Spots<'_>, j: usize, e: u32) -> bool
    requires { (Reference x y h b.x.now b.y.now b.height.now) × (j < length b.x.now) }
    ensures { let b = b.entry in
        result ≡ near (e * e) x y h (spot b.x.now b.y.now b.height.now j).site }
{
    let reach = e as u64;
    let above = (window::offset(b.y[j]) + reach).wrapping_sub(window::offset(y));
    if 2 * reach < above {
        return false;
    }
    let squared = site::squared_distance(x, y, h, b.x[j], b.y[j], b.height[j]);
    squared <= reach * reach && 1 <= squared
}

// How many sites of a run are near a position.
fn count_row(x: i32, y: i32, h: i32, b: Spots<'_>, run: Run, e: u32) -> u64
    requires { (Reference x y h b.x.now b.y.now b.height.now) × (run.right ≤ length b.x.now) }
    ensures { let b = b.entry in
        result ≡ length (near_sites (e * e) x y h b.x.now b.y.now b.height.now run.left run.right) }
{
    let mut count = 0;
    for j in run.left..run.right {
        if is_near(x, y, h, b, j, e) {
            count += 1;
        }
    }
    count
}

// How many pairs of two lawful lists are within `e`.
fn count_all(a: Spots<'_>, b: Spots<'_>, e: u32) -> u64
    requires coordinates { (Coordinates a.x.now a.y.now) × (Heights (length a.x.now) a.height.now) }
    requires coordinates_2 { (Coordinates b.x.now b.y.now) × (Heights (length b.x.now) b.height.now) }
    ensures { result ≡ length (lent_pairs e a.entry b.entry 0) }
{
    let mut count = 0;
    let mut run = Run { left: 0, right: 0 };
    for i in 0..a.x.len() {
        run = window::next_run(a.x, b.x, i, run, e);
        count += count_row(a.x[i], a.y[i], a.height[i], b, run, e);
    }
    count
}

// Writes a pair for each site of a run that is near a position, from place `n` of the columns on: the place past them.
fn write_row(
    x: i32,
    y: i32,
    h: i32,
    place: u32,
    b: Spots<'_>,
    run: Run,
    e: u32,
    n: usize,
    first: &mut [u32],
    second: &mut [u32],
) -> usize
    requires { let pairs = row_pairs e x y h place b.x.now b.y.now b.height.now run.left run.right in
        (Reference x y h b.x.now b.y.now b.height.now)
        × (run.right ≤ length b.x.now)
        × (Room pairs n first.old second.old) }
    ensures { let b = b.entry in
        let pairs = row_pairs e x y h place b.x.now b.y.now b.height.now run.left run.right in
        Writes pairs n first second result }
{
    let mut at = n;
    for j in run.left..run.right {
        if is_near(x, y, h, b, j, e) {
            first[at] = place;
            second[at] = j as u32;
            at += 1;
        }
    }
    at
}

// Writes the places of all pairs within `e` of two lawful lists into the columns, which have room for them: how many.
fn write_all(a: Spots<'_>, b: Spots<'_>, e: u32, first: &mut [u32], second: &mut [u32]) -> usize
    requires coordinates { (Coordinates a.x.now a.y.now) × (Heights (length a.x.now) a.height.now) }
    requires coordinates_2 { (Coordinates b.x.now b.y.now) × (Heights (length b.x.now) b.height.now) }
    requires room { Room (lent_pairs e a b 0) 0 first.old second.old }
    ensures { Writes (lent_pairs e a.entry b.entry 0) 0 first second result }
{
    let mut n = 0;
    let mut run = Run { left: 0, right: 0 };
    for i in 0..a.x.len() {
        run = window::next_run(a.x, b.x, i, run, e);
        n = write_row(
            a.x[i],
            a.y[i],
            a.height[i],
            i as u32,
            b,
            run,
            e,
            n,
            first,
            second,
        );
    }
    n
}

// Whether a distance list is refused: for 1, 2 or 3 of each list, then for 6.
fn distance_refusal(
    a: SiteColumns<'_>,
    b: SiteColumns<'_>,
    e: u32,
    first: &[u32],
    second: &[u32],
) -> Result<(), Refusal>
    ensures { refusal_of result ≡ distance_refusal (list_of a.entry) (list_of b.entry) e first.now second.now }
{
    site::lists_refusal(a, b)?;
    let p = a.spots();
    let q = b.spots();
    let count = count_all(p, q, e);
    if (first.len().min(second.len()) as u64) < count {
        return Err(Refusal::Room);
    }
    Ok(())
}

// All pairs of two lists with squared distance at most `e²`, by first place and then second. (01: distance list.)
pub fn distance_list(
    a: SiteColumns<'_>,
    b: SiteColumns<'_>,
    e: u32,
    first: &mut [u32],
    second: &mut [u32],
) -> Result<u64, Refusal>
    ensures { let answer = distance_answer (list_of a.entry) (list_of b.entry) e first.old second.old in
        (answer_of (distance_values first.new second.new) result ≡ answer)
        × ((first.new ≡ afterwards (λ v. v.first) answer first.old)
        × (second.new ≡ afterwards (λ v. v.second) answer second.old)) }
{
    distance_refusal(a, b, e, first, second)?;
    let p = a.spots();
    let q = b.spots();
    let count = write_all(p, q, e, first, second);
    Ok(count as u64)
}
