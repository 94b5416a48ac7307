// An input: its refusal, and the sites of its file.
ghost use Rattle.std.specs.Prelude.{◌≡◌, ◌<◌, set};
ghost use Rattle.site.specs.Answer.{refusal_of};
ghost use Rattle.site.specs.SiteList.{columns, site_at, columns_of};
ghost use Rattle.site_file.specs.File.{count_in, sites_in};
ghost use Rattle.site_file.specs.Calls.{contents_refusal, read_refusal};
ghost use Rattle.listing.specs.Listing.{listing_refusal};
ghost use Rattle.listing.specs.Internal.{Sized};

use site::Refusal;
use site_file::Which;

// Reads the site at place `i` of a list of a file into that place of three columns.
fn read_site(file: &[u8], which: Which, x: &mut [i32], y: &mut [i32], number: &mut [u32], i: usize)
    requires file_value { (contents_refusal file.now ≡ 0) × (i < count_in file.now which) }
    requires sized { Sized (count_in file.now which) (columns x.old y.old number.old) }
    ensures { let s = site_at (sites_in file.now which) i in
        (x.new ≡ set x.old i s.x)
        × ((y.new ≡ set y.old i s.y)
        × (number.new ≡ set number.old i s.number)) }
{
    if let Ok(s) = site_file::consult(file, which, i as u32) {
        x[i] = s.x;
        y[i] = s.y;
        number[i] = s.number;
    }
}

// Reads a list of a file into three columns that it fills.
pub(super) fn read_sites(
    file: &[u8],
    which: Which,
    x: &mut [i32],
    y: &mut [i32],
    number: &mut [u32],
)
    requires file_value { contents_refusal file.now ≡ 0 }
    requires sized { Sized (count_in file.now which) (columns x.old y.old number.old) }
    ensures { columns x.new y.new number.new ≡ columns_of (sites_in file.now which) }
{
    for i in 0..x.len() {
        read_site(file, which, x, y, number, i);
    }
}

// Whether a site file is refused.
fn file_refusal(file: &[u8]) -> Result<(), Refusal>
    ensures { refusal_of result ≡ read_refusal file.now }
{
    site_file::read(file)?;
    Ok(())
}

// Whether an input is refused: for 6 or 10, then as its file is, then for 4.
pub(super) fn input_refusal(input: &[u8]) -> Result<(), Refusal>
    ensures { refusal_of result ≡ listing_refusal input.now }
{
    if 48020 < input.len() {
        return Err(Refusal::Room);
    }
    if input.len() < 4 {
        return Err(Refusal::File);
    }
    file_refusal(&input[4..])?;
    if entry::lawful_k(site_file::word_at(input, 0)) {
        Ok(())
    } else {
        Err(Refusal::K)
    }
}
