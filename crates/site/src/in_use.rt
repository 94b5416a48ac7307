// The sites in use: their refusal, the place of a site among them, and whether it is there.
ghost use Rattle.std.specs.Prelude.{◌≡◌, true, cond, ◌≤◌, ◌<◌, length};
ghost use Rattle.order.specs.Order.{ascending};
ghost use Rattle.site.specs.Answer.{refusal_of};
ghost use Rattle.site.specs.Site.{site_before};
ghost use Rattle.site.specs.SiteList.{site, columns, lent_plane, list_of, sites, site_at, in_use};
ghost use Rattle.site.specs.InUse.{used_refusal, place_of, present};
ghost use Rattle.site.specs.Terms.{Level};

use super::{Refusal, SiteColumns, lists};

// Whether the sites in use are refused: for 1, 2 or 3.
pub(super) fn used_refusal(l: SiteColumns<'_>, count: u32) -> Result<(), Refusal>
    ensures { refusal_of result ≡ used_refusal (list_of l.entry) count }
{
    let sites = l.x.len();
    if sites != l.y.len() || sites != l.number.len() || sites != l.height.len() {
        return Err(Refusal::Columns);
    }
    let n = count as usize;
    if 65_535 < n || sites < n {
        return Err(Refusal::Columns);
    }
    lists::list_refusal(SiteColumns {
        x: &l.x[..n],
        y: &l.y[..n],
        number: &l.number[..n],
        height: &l.height[..n],
    })
}

// 1 where the site at `i` comes before another, else 0.
fn earlier_at(x: &[i32], y: &[i32], number: &[u32], i: usize, sx: i32, sy: i32, sn: u32) -> u32
    requires { (Level (columns x.now y.now number.now)) × (i < length x.now) }
    ensures { let l = sites (lent_plane x y number).entry in
        result ≡ cond (site_before (site_at l i) (site sx sy sn)) 1 0 }
{
    lists::before(x[i], y[i], number[i], sx, sy, sn) as u32
}

// The place of a site among the first `n`: how many of them come before it.
pub fn place_of(x: &[i32], y: &[i32], number: &[u32], n: usize, sx: i32, sy: i32, sn: u32) -> u32
    requires { (Level (columns x.now y.now number.now)) × (n ≤ length x.now) × (n ≤ 65_535) }
    ensures { result ≡ place_of (site sx sy sn) (sites (in_use n (lent_plane x y number).entry)) }
{
    let mut place = 0;
    for i in 0..n {
        place += earlier_at(x, y, number, i, sx, sy, sn);
    }
    place
}

// Whether a site stands among the first `n`, which ascend: at its place, or nowhere.
pub fn is_present(x: &[i32], y: &[i32], number: &[u32], n: usize, sx: i32, sy: i32, sn: u32) -> bool
    requires level { (Level (columns x.now y.now number.now)) × (n ≤ length x.now) × (n ≤ 65_535) }
    requires number_value { ascending site_before (sites (in_use n (columns x.now y.now number.now))) ≡ true }
    ensures { result ≡ present (site sx sy sn) (sites (in_use n (lent_plane x y number).entry)) }
{
    let place = place_of(x, y, number, n, sx, sy, sn) as usize;
    place < n && !lists::before(sx, sy, sn, x[place], y[place], number[place])
}
