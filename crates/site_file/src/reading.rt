// Reading a file: its contents and length, then each list's sites.
ghost use Rattle.std.specs.Prelude.{◌≡◌, ◌+◌, ◌*◌, ◌≤◌, length};
ghost use Rattle.order.specs.Order.{ascending};
ghost use Rattle.order.specs.Lists.{all};
ghost use Rattle.site.specs.Site.{lawful_site, site_before};
ghost use Rattle.site.specs.Answer.{answer_of, refusal_of};
ghost use Rattle.site.specs.Refusal.{content_refusal};
ghost use Rattle.site_file.specs.File.{site_of_file, count_in, site_in, sites_from};
ghost use Rattle.site_file.specs.Calls.{contents_refusal, read_refusal, counts, read_answer};

use super::{Counts, FileSite, Which, numbers};
use site::{Refusal, Site};

// The site whose bytes begin at a position.
pub(super) fn site_at(file: &[u8], at: usize) -> FileSite
    requires { at + 12 ≤ length file.now }
    ensures { site_of_file result ≡ site_in file.now at }
{
    FileSite {
        x: numbers::signed(numbers::whole_word(file, at)),
        y: numbers::signed(numbers::whole_word(file, at + 4)),
        number: numbers::whole_word(file, at + 8),
    }
}

// Whether the site at a position is inside the limits.
fn lawful_at(file: &[u8], at: usize) -> bool
    requires { at + 12 ≤ length file.now }
    ensures { result ≡ lawful_site (site_in file.now at) }
{
    let s = site_at(file, at);
    Site::within(s.x) && Site::within(s.y)
}

// Whether the site at a position comes before the site after it.
fn ordered_at(file: &[u8], at: usize) -> bool
    requires { at + 24 ≤ length file.now }
    ensures { result ≡ site_before (site_in file.now at) (site_in file.now (at + 12)) }
{
    let s = site_at(file, at);
    let t = site_at(file, at + 12);
    site::before(s.x, s.y, s.number, t.x, t.y, t.number)
}

// Whether all of the sites from a position on are inside the limits.
fn all_lawful(file: &[u8], start: usize, count: usize) -> bool
    requires { start + 12 * count ≤ length file.now }
    ensures { result ≡ all lawful_site (sites_from file.now start count) }
{
    (0..count).all(|i| lawful_at(file, start + 12 * i))
}

// Whether the sites from a position on are strictly ascending.
fn all_ascending(file: &[u8], start: usize, count: usize) -> bool
    requires { start + 12 * count ≤ length file.now }
    ensures { result ≡ ascending site_before (sites_from file.now start count) }
{
    (1..count).all(|i| ordered_at(file, start + 12 * (i - 1)))
}

// Whether the sites from a position on are refused: for 2, then 3.
fn content_refusal(file: &[u8], start: usize, count: usize) -> Result<(), Refusal>
    requires { start + 12 * count ≤ length file.now }
    ensures { refusal_of result ≡ content_refusal (sites_from file.now start count) }
{
    if !all_lawful(file, start, count) {
        return Err(Refusal::Limits);
    }
    if !all_ascending(file, start, count) {
        return Err(Refusal::Order);
    }
    Ok(())
}

// Whether a file's contents and length are refused: for 10 where it is too short, then 1, then 10.
pub(super) fn contents_refusal(file: &[u8]) -> Result<(), Refusal>
    ensures { refusal_of result ≡ contents_refusal file.now }
{
    if file.len() < 16 {
        return Err(Refusal::File);
    }
    let n = numbers::word_at(file, 4);
    let m = numbers::word_at(file, 12);
    if 65535 < n || 65535 < m {
        return Err(Refusal::Columns);
    }
    if numbers::word_at(file, 0) != 16
        || numbers::word_at(file, 8) != 16 + 12 * n
        || file.len() != (16 + 12 * n + 12 * m) as usize
    {
        return Err(Refusal::File);
    }
    Ok(())
}

// Whether a file is refused: for its contents and length, then for each list's sites.
fn read_refusal(file: &[u8]) -> Result<(), Refusal>
    ensures { refusal_of result ≡ read_refusal file.now }
{
    contents_refusal(file)?;
    content_refusal(file, 16, numbers::word_at(file, 4) as usize)?;
    content_refusal(
        file,
        numbers::word_at(file, 8) as usize,
        numbers::word_at(file, 12) as usize,
    )
}

// What a file's contents say of a list: its site count.
pub fn count_in(file: &[u8], which: Which) -> u32
    ensures { result ≡ count_in file.now which }
{
    match which {
        Which::First => numbers::word_at(file, 4),
        Which::Second => numbers::word_at(file, 12),
    }
}

// Reads a file: both site counts, or the refusal.
pub fn read(file: &[u8]) -> Result<Counts, Refusal>
    ensures { answer_of counts result ≡ read_answer file.now }
{
    read_refusal(file)?;
    Ok(Counts {
        first: numbers::word_at(file, 4),
        second: numbers::word_at(file, 12),
    })
}
