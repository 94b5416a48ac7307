// Adding a site to the sites in use.
ghost use Rattle.std.specs.Prelude.{◌≡◌, ◌≤◌, ◌<◌, length};
ghost use Rattle.site.specs.Site.{lawful_site};
ghost use Rattle.site.specs.Answer.{afterwards, answer_of, refusal_of};
ghost use Rattle.site.specs.SiteList.{raised_site, list_of, lent_list_mut};
ghost use Rattle.site.specs.InUse.{changed};
ghost use Rattle.site.specs.Addition.{add_refusal, insert_site, site_of, add_answer};

use super::{Changed, Refusal, Site, SiteColumns, in_use};

// Whether the coordinates of a site are inside the limits.
pub fn lawful(sx: i32, sy: i32, sh: i32) -> bool
    ensures { result ≡ lawful_site (raised_site sx sy 0 sh) }
{
    Site::within(sx) && Site::within(sy) && Site::height_within(sh)
}

// Whether an addition is refused: for 1, 2, 3, 6 or 11.
fn add_refusal(l: SiteColumns<'_>, count: u32, s: Site) -> Result<(), Refusal>
    ensures { refusal_of result ≡ add_refusal (list_of l.entry) count (site_of s) }
{
    in_use::used_refusal(l, count)?;
    if !lawful(s.x, s.y, s.height) {
        return Err(Refusal::Limits);
    }
    let n = count as usize;
    if l.x.len() <= n || 65_535 <= count {
        return Err(Refusal::Room);
    }
    if in_use::is_present(l.x, l.y, l.number, n, s.x, s.y, s.number) {
        return Err(Refusal::Present);
    }
    Ok(())
}

// A site at a place of the four columns, the rest of the first `n` moved up by one.
fn insert_site(
    x: &mut [i32],
    y: &mut [i32],
    number: &mut [u32],
    height: &mut [i32],
    place: usize,
    n: usize,
    s: Site,
)
    requires { (place ≤ n) × (n < length x.old) × (n < length y.old) × (n < length number.old) × (n < length height.old) }
    ensures { let c = lent_list_mut x y number height in c.exit ≡ insert_site place n (site_of s) c.entry }
{
    column::insert(x, place, n, s.x);
    column::insert(y, place, n, s.y);
    column::insert(number, place, n, s.number);
    column::insert(height, place, n, s.height);
}

// A site at its place, later ones moved up by one. (01: adding a site.)
pub fn add(
    x: &mut [i32],
    y: &mut [i32],
    number: &mut [u32],
    height: &mut [i32],
    count: u32,
    s: Site,
) -> Result<Changed, Refusal>
    ensures { let c = lent_list_mut x y number height in
        let answer = add_answer c.entry count (site_of s) in
        (answer_of (changed c.exit) result ≡ answer) × (c.exit ≡ afterwards (λ v. v.columns) answer c.entry) }
{
    let lent = SiteColumns {
        x,
        y,
        number,
        height,
    };
    add_refusal(lent, count, s)?;
    let n = count as usize;
    let place = in_use::place_of(x, y, number, n, s.x, s.y, s.number);
    insert_site(x, y, number, height, place as usize, n, s);
    Ok(Changed {
        place,
        count: count + 1,
    })
}
