// The table of bands judged band by band, and taken into a tariff by value.
ghost use Rattle.std.specs.Prelude.{◌≡◌, ◌<◌};
ghost use Rattle.site.specs.Answer.{refuse_if, number, refusal_of};
ghost use Rattle.bands.specs.Bands.{overlaps, leaves_gap, band_refusal};
ghost use Rattle.bands.specs.Internal.{tariff_of, begun, taken, gathered};

use super::{Band, Tariff};
use site::Refusal;

// Refused for that reason where the fault is there.
#[tactic(auto, unfolding(site::specs::Answer::refusal_of))]
fn refuse_if(fault: bool, refusal: Refusal) -> Result<(), Refusal>
    ensures { refusal_of result ≡ refuse_if fault (number refusal) }
{
    if fault { Err(refusal) } else { Ok(()) }
}

// A tariff of so many bands, none taken yet. Where their number is wrong it has none, and is refused.
fn begin(count: usize) -> Tariff
    ensures { tariff_of result ≡ begun count }
{
    let lawful = (1..=64).contains(&count);
    Tariff {
        bands: if lawful { count } else { 0 },
        refusal: refuse_if(!lawful, Refusal::Price),
        to: 0,
        ends: [Band::LAST_TO_SQUARED; 64],
        prices: [0; 64],
    }
}

// Whether a band overlaps the one before it, which ends at `before`, or is empty, or runs past the end.
fn overlaps(before: u32, band: Band) -> bool
    ensures { result ≡ overlaps before band }
{
    band.from < before || band.to <= band.from || Band::LAST_TO < band.to
}

// Whether a band leaves a gap behind the one before it, or, where it is the last, before the end.
fn leaves_gap(before: u32, last: bool, band: Band) -> bool
    ensures { result ≡ leaves_gap before last band }
{
    before < band.from || (last && band.to < Band::LAST_TO)
}

// Whether one band is refused, by the end of the band before it, 0 for the first, and whether it is the last: for 13, then 12.
#[tactic(auto, unfolding(site::specs::Answer::refusal_of, site::specs::Answer::number, site::specs::Answer::or_else, crate::specs::Bands::band_refusal))]
fn judge(before: u32, last: bool, band: Band) -> Result<(), Refusal>
    ensures { refusal_of result ≡ band_refusal before last band }
{
    if overlaps(before, band) {
        return Err(Refusal::Overlap);
    }
    if leaves_gap(before, last, band) {
        return Err(Refusal::Gap);
    }
    Ok(())
}

// A tariff with one band more, the one at place `i`: 14 before all, then what was told before, then the band's own.
fn take(mut tariff: Tariff, i: usize, band: Band) -> Tariff
    requires { i < 64 }
    ensures { tariff_of result ≡ taken (tariff_of tariff) i band }
{
    let dear = refuse_if(Band::MAX_PRICE < band.price, Refusal::Price);
    let own = judge(tariff.to, i + 1 == tariff.bands, band);
    tariff.refusal = dear.and(tariff.refusal).and(own);
    tariff.to = band.to;
    tariff.ends[i] = band.to as u64 * band.to as u64;
    tariff.prices[i] = band.price;
    tariff
}

// The tariff of a table of bands.
pub(super) fn gather(bands: &[Band]) -> Tariff
    ensures { tariff_of result ≡ gathered bands.now }
{
    let mut t = begin(bands.len());
    for (i, &band) in bands[..t.bands].iter().enumerate() {
        t = take(t, i, band);
    }
    t
}
