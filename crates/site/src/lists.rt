// A site list: the order of its sites, its refusals, checking one.
ghost use Rattle.std.specs.Prelude.{◌≡◌, true, cond, not, ◌&&◌, ◌+◌, ◌≤◌, ◌<◌, length};
ghost use Rattle.order.specs.Order.{ascending};
ghost use Rattle.std.specs.Int.Signed.{lt_z};
ghost use Rattle.order.specs.Lists.{all};
ghost use Rattle.order.specs.Terms.{Sorted};
ghost use Rattle.site.specs.Site.{between, within, site_before};
ghost use Rattle.site.specs.SiteList.{site, columns, lent_plane, list_of, sites, site_at};
ghost use Rattle.site.specs.Terms.{Level};
ghost use Rattle.site.specs.Answer.{refuse_if, or_else, answer_of, refusal_of};
ghost use Rattle.site.specs.Refusal.{size_fault, list_refusal, lists_refusal, check_answer};

use super::{Refusal, Site, SiteColumns};

// Whether one site comes before another: by x, then y, then number. A tuple's comparison jumps, so that loops would compare one
// site at a time.
#[tactic(auto, unfolding(crate::specs::Site::site_before, order::specs::Order::lex))]
pub fn before(ax: i32, ay: i32, an: u32, bx: i32, by: i32, bn: u32) -> bool
    ensures { result ≡ site_before (site ax ay an) (site bx by bn) }
{
    ax < bx || (ax <= bx && (ay < by || (ay <= by && an < bn)))
}

// 1 for a coordinate outside two limits, else 0.
fn outside(low: i32, high: i32, c: i32) -> u32
    ensures { result ≡ cond (between low high c) 0 1 }
{
    !super::between(low, high, c) as u32
}

// Whether a column's coordinates are all inside two limits. Faults are counted to the end: a loop without a way out takes many
// at a time.
fn all_between(low: i32, high: i32, column: &[i32]) -> bool
    requires { length column.now ≤ 65_535 }
    ensures { result ≡ all (between low high) column.now }
{
    let mut faults = 0;
    for &c in column {
        faults += outside(low, high, c);
    }
    faults == 0
}

// The same of a column that never falls: its ends tell.
fn ends_between(low: i32, high: i32, column: &[i32]) -> bool
    requires { Sorted lt_z column.now }
    ensures { result ≡ all (between low high) column.now }
{
    if column.is_empty() {
        return true;
    }
    super::between(low, high, column[0]) && super::between(low, high, column[column.len() - 1])
}

// The same of any column; where it is known never to fall, by its ends.
fn column_between(low: i32, high: i32, column: &[i32], sorted: bool) -> bool
    requires { (length column.now ≤ 65_535) × (sorted ≡ true → Sorted lt_z column.now) }
    ensures { result ≡ all (between low high) column.now }
{
    if sorted {
        ends_between(low, high, column)
    } else {
        all_between(low, high, column)
    }
}

// 1 where the site at `i + 1` does not come after the one at `i`, else 0.
fn break_at(x: &[i32], y: &[i32], number: &[u32], i: usize) -> u32
    requires { (Level (columns x.now y.now number.now)) × (i + 1 < length x.now) }
    ensures { let l = sites (lent_plane x y number).entry in
        result ≡ cond (site_before (site_at l i) (site_at l (i + 1))) 0 1 }
{
    !before(x[i], y[i], number[i], x[i + 1], y[i + 1], number[i + 1]) as u32
}

// Whether each site comes before the one after it.
fn ascends(x: &[i32], y: &[i32], number: &[u32]) -> bool
    requires { (Level (columns x.now y.now number.now)) × (length x.now ≤ 65_535) }
    ensures { result ≡ ascending site_before (sites (lent_plane x y number).entry) }
{
    let mut breaks = 0;
    for i in 1..x.len() {
        breaks += break_at(x, y, number, i - 1);
    }
    breaks == 0
}

// Whether three columns are of one length, of no more sites than a list may have.
fn are_level(x: &[i32], y: &[i32], number: &[u32]) -> bool
    ensures { result ≡ not (size_fault (lent_plane x y number).entry (length x.now)) }
{
    if x.len() != y.len() || x.len() != number.len() {
        return false;
    }
    x.len() <= 65_535
}

// Whether all positions are inside the limits; of columns that are known to ascend, the ends of x tell.
fn positions_within(x: &[i32], y: &[i32], sorted: bool) -> bool
    requires { (length x.now ≤ 65_535) × (length y.now ≤ 65_535) × (sorted ≡ true → Sorted lt_z x.now) }
    ensures { result ≡ (all within x.now && all within y.now) }
{
    column_between(Site::MIN, Site::MAX, x, sorted) && all_between(Site::MIN, Site::MAX, y)
}

// Whether columns whose sizes have no fault are refused: for 2, then for 3.
#[tactic(auto, unfolding(crate::specs::Answer::refusal_of, crate::specs::Answer::number, crate::specs::Answer::or_else))]
fn content_refusal(inside: bool, sorted: bool) -> Result<(), Refusal>
    ensures { refusal_of result ≡ or_else (refuse_if (not inside) 2) (refuse_if (not sorted) 3) }
{
    if !inside {
        return Err(Refusal::Limits);
    }
    if sorted { Ok(()) } else { Err(Refusal::Order) }
}

// Whether a list of the plane is refused: for 1, 2 or 3.
pub fn plane_refusal(x: &[i32], y: &[i32], number: &[u32]) -> Result<(), Refusal>
    ensures { refusal_of result ≡ list_refusal (lent_plane x y number).entry }
{
    if !are_level(x, y, number) {
        return Err(Refusal::Columns);
    }
    let sorted = ascends(x, y, number);
    content_refusal(positions_within(x, y, sorted), sorted)
}

// Whether a list is refused: for 1, 2 or 3. Its order is that of the list in the plane.
pub fn list_refusal(l: SiteColumns<'_>) -> Result<(), Refusal>
    ensures { refusal_of result ≡ list_refusal (list_of l.entry) }
{
    if !are_level(l.x, l.y, l.number) || l.x.len() != l.height.len() {
        return Err(Refusal::Columns);
    }
    let sorted = ascends(l.x, l.y, l.number);
    let inside = positions_within(l.x, l.y, sorted)
        && all_between(Site::LOWEST, Site::HIGHEST, l.height);
    content_refusal(inside, sorted)
}

// Whether two lists are refused: for 1, 2 or 3 of the first, else of the second.
pub fn lists_refusal(a: SiteColumns<'_>, b: SiteColumns<'_>) -> Result<(), Refusal>
    ensures { refusal_of result ≡ lists_refusal (list_of a.entry) (list_of b.entry) }
{
    list_refusal(a)?;
    list_refusal(b)
}

// How many sites a list has, where its columns are a lawful one. (01: checking a site list.)
pub fn check(l: SiteColumns<'_>) -> Result<u32, Refusal>
    ensures { answer_of (λ sites. sites) result ≡ check_answer (list_of l.entry) }
{
    list_refusal(l)?;
    Ok(l.x.len() as u32)
}
