// The site file: writing one, reading one, and its sites.
ghost use Rattle.column.specs.Lent.{the, ◌of_mut◌};
ghost use Rattle.site.specs.SiteList.{lent_plane, site};
ghost use Rattle.site_file.specs.declared.Which.TheVariants.{First, Second};
ghost use Rattle.site_file.specs.Calls.{write_values, write_answer, read_answer, site_answer, read_values};
ghost use Rattle.vumlintel.specs.Crosses.{Crosses};

use super::crossing::cross;
use site_file::Which;

// Writing two lists as a site file: its length.
#[unsafe(no_mangle)]
pub extern "C" fn vumlintel_write_file(
    ax: &[i32],
    ay: &[i32],
    an: &[u32],
    bx: &[i32],
    by: &[i32],
    bn: &[u32],
    buffer: &mut [u8],
    length: &mut u32,
) -> u32
    ensures { let a = (lent_plane ax ay an).entry in
        let b = (lent_plane bx by bn).entry in
        Crosses (write_answer a b buffer.old) result (the write_values of_mut buffer of_mut length) }
{
    let answer = site_file::write(ax, ay, an, bx, by, bn, buffer);
    cross(answer, length)
}

// Reading a site file: both site counts.
#[unsafe(no_mangle)]
pub extern "C" fn vumlintel_read_file(file: &[u8], first: &mut u32, second: &mut u32) -> u32
    ensures { Crosses (read_answer file.now) result (the read_values of_mut first of_mut second) }
{
    match site_file::read(file) {
        Ok(counts) => {
            *first = counts.first;
            *second = counts.second;
            0
        }
        Err(refusal) => refusal.number(),
    }
}

// A site of one of a file's lists.
fn file_site(
    file: &[u8],
    which: Which,
    place: u32,
    x: &mut i32,
    y: &mut i32,
    number: &mut u32,
) -> u32
    ensures { Crosses (site_answer file.now which place) result (the site of_mut x of_mut y of_mut number) }
{
    match site_file::consult(file, which, place) {
        Ok(site) => {
            *x = site.x;
            *y = site.y;
            *number = site.number;
            0
        }
        Err(fault) => fault.number(),
    }
}

// A site of a file's first list.
#[unsafe(no_mangle)]
pub extern "C" fn vumlintel_file_site_first(
    file: &[u8],
    place: u32,
    x: &mut i32,
    y: &mut i32,
    number: &mut u32,
) -> u32
    ensures { Crosses (site_answer file.now First place) result (the site of_mut x of_mut y of_mut number) }
{
    file_site(file, Which::First, place, x, y, number)
}

// A site of a file's second list.
#[unsafe(no_mangle)]
pub extern "C" fn vumlintel_file_site_second(
    file: &[u8],
    place: u32,
    x: &mut i32,
    y: &mut i32,
    number: &mut u32,
) -> u32
    ensures { Crosses (site_answer file.now Second place) result (the site of_mut x of_mut y of_mut number) }
{
    file_site(file, Which::Second, place, x, y, number)
}
