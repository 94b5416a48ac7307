// Removing a site from the sites in use.
ghost use Rattle.std.specs.Prelude.{◌≡◌, ◌≤◌, ◌<◌, length};
ghost use Rattle.site.specs.Answer.{afterwards, answer_of, refusal_of};
ghost use Rattle.site.specs.SiteList.{site, list_of, lent_list_mut};
ghost use Rattle.site.specs.InUse.{changed};
ghost use Rattle.site.specs.Removal.{remove_refusal, remove_site, remove_answer};

use super::{Changed, Refusal, SiteColumns, in_use};

// Whether a removal is refused: for 1, 2, 3 or 16.
fn remove_refusal(l: SiteColumns<'_>, count: u32, sx: i32, sy: i32, sn: u32) -> Result<(), Refusal>
    ensures { refusal_of result ≡ remove_refusal (list_of l.entry) count (site sx sy sn) }
{
    in_use::used_refusal(l, count)?;
    if in_use::is_present(l.x, l.y, l.number, count as usize, sx, sy, sn) {
        Ok(())
    } else {
        Err(Refusal::Absent)
    }
}

// The site at a place taken out of the four columns, the rest of the first `n` moved down by one.
fn remove_site(
    x: &mut [i32],
    y: &mut [i32],
    number: &mut [u32],
    height: &mut [i32],
    place: usize,
    n: usize,
)
    requires { (place < n) × (n ≤ length x.old) × (n ≤ length y.old) × (n ≤ length number.old) × (n ≤ length height.old) }
    ensures { let c = lent_list_mut x y number height in c.exit ≡ remove_site place n c.entry }
{
    column::remove(x, place, n);
    column::remove(y, place, n);
    column::remove(number, place, n);
    column::remove(height, place, n);
}

// A site taken out of its place, later ones moved down by one. (02 f: taking a site out.)
pub fn remove(
    x: &mut [i32],
    y: &mut [i32],
    number: &mut [u32],
    height: &mut [i32],
    count: u32,
    sx: i32,
    sy: i32,
    sn: u32,
) -> Result<Changed, Refusal>
    ensures { let c = lent_list_mut x y number height in
        let answer = remove_answer c.entry count (site sx sy sn) in
        (answer_of (changed c.exit) result ≡ answer) × (c.exit ≡ afterwards (λ v. v.columns) answer c.entry) }
{
    let lent = SiteColumns {
        x,
        y,
        number,
        height,
    };
    remove_refusal(lent, count, sx, sy, sn)?;
    let n = count as usize;
    let place = in_use::place_of(x, y, number, n, sx, sy, sn);
    remove_site(x, y, number, height, place as usize, n);
    Ok(Changed {
        place,
        count: count - 1,
    })
}
