// Checking a site list, adding a site to one, and removing one.
ghost use Rattle.std.specs.Prelude.{◌≡◌};
ghost use Rattle.column.specs.Lent.{the, ◌with◌, ◌of_mut◌};
ghost use Rattle.site.specs.SiteList.{Columns, lent_list, list_of, site, raised_site, lent_list_mut};
ghost use Rattle.site.specs.Refusal.{check_answer};
ghost use Rattle.site.specs.Answer.{answer_of};
ghost use Rattle.site.specs.InUse.{change_values, changed};
ghost use Rattle.site.specs.Addition.{add_answer};
ghost use Rattle.site.specs.Removal.{remove_answer};
ghost use Rattle.vumlintel.specs.Crosses.{Crosses};

use super::crossing::cross;
use site::{Changed, Refusal, Site, SiteColumns};

// A list as it is lent across the boundary.
pub(super) fn list<'a>(
    x: &'a [i32],
    y: &'a [i32],
    number: &'a [u32],
    height: &'a [i32],
) -> SiteColumns<'a>
    ensures { list_of result ≡ (lent_list x y number height).entry }
{
    SiteColumns {
        x,
        y,
        number,
        height,
    }
}

// Checking a site list: the site count.
#[unsafe(no_mangle)]
pub extern "C" fn vumlintel_check(
    x: &[i32],
    y: &[i32],
    number: &[u32],
    height: &[i32],
    count: &mut u32,
) -> u32
    ensures { Crosses (check_answer (lent_list x y number height).entry) result (the (λ n. n) of_mut count) }
{
    let answer = site::check(list(x, y, number, height));
    cross(answer, count)
}

// What adding or removing a site answers beside the columns, across the boundary.
fn cross_changed(answer: Result<Changed, Refusal>, place: &mut u32, count: &mut u32) -> u32
    ensures { (c : Columns) → Crosses (answer_of (changed c) answer) result (the (change_values c) of_mut place of_mut count) }
{
    match answer {
        Ok(told) => {
            *place = told.place;
            *count = told.count;
            0
        }
        Err(refusal) => refusal.number(),
    }
}

// Adding a site to the sites in use: its place and the new count.
#[unsafe(no_mangle)]
pub extern "C" fn vumlintel_add(
    x: &mut [i32],
    y: &mut [i32],
    number: &mut [u32],
    height: &mut [i32],
    in_use: u32,
    site_x: i32,
    site_y: i32,
    site_number: u32,
    site_height: i32,
    place: &mut u32,
    count: &mut u32,
) -> u32
    ensures { let c = lent_list_mut x y number height in
        let answer = add_answer c.entry in_use (raised_site site_x site_y site_number site_height) in
        Crosses answer result (the change_values with c of_mut place of_mut count) }
{
    let s = Site {
        x: site_x,
        y: site_y,
        number: site_number,
        height: site_height,
    };
    let answer = site::add(x, y, number, height, in_use, s);
    cross_changed(answer, place, count)
}

// Removing a site from the sites in use: the place it had and the new count.
#[unsafe(no_mangle)]
pub extern "C" fn vumlintel_remove(
    x: &mut [i32],
    y: &mut [i32],
    number: &mut [u32],
    height: &mut [i32],
    in_use: u32,
    site_x: i32,
    site_y: i32,
    site_number: u32,
    place: &mut u32,
    count: &mut u32,
) -> u32
    ensures { let c = lent_list_mut x y number height in
        let answer = remove_answer c.entry in_use (site site_x site_y site_number) in
        Crosses answer result (the change_values with c of_mut place of_mut count) }
{
    let answer = site::remove(x, y, number, height, in_use, site_x, site_y, site_number);
    cross_changed(answer, place, count)
}
