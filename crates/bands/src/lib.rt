// Price bands: the sales desk edits a lent table of them and prices a case list from it. (02 b.)
#![tactic(auto)]

mod judging;
mod pricing;

ghost use Rattle.std.specs.Prelude.{◌≡◌};
ghost use Rattle.site.specs.Answer.{afterwards, answer_of};
ghost use Rattle.bands.specs.Calls.{edit_answer, edit_values, price_answer, price_values};

use site::Refusal;

// A band of squared distances and its price: a pair is in it where `from` squared is at most its squared distance and
// `to` squared is greater.
#[repr(C)]
#[derive(Clone, Copy)]
pub struct Band {
    pub from: u32,
    pub to: u32,
    pub price: u32,
}

impl Band {
    // Where the last band ends, and its square.
    const LAST_TO: u32 = 2_828_427_125;

    const LAST_TO_SQUARED: u64 = 8_000_000_001_435_765_625;

    // The highest price.
    const MAX_PRICE: u32 = 1_000_000;
}

// A table of bands by value: how many it has, whether it is refused, where the last band taken ends, and for each
// band taken the square of its end and its price. Places past the bands end where the last band does.
#[derive(Clone, Copy)]
struct Tariff {
    bands: usize,
    refusal: Result<(), Refusal>,
    to: u32,
    ends: [u64; 64],
    prices: [u32; 64],
}

// Replaces the band at a place, unjudged: the place, or the refusal.
pub fn edit(bands: &mut [Band], place: u32, band: Band) -> Result<u32, Refusal>
    ensures { let answer = edit_answer bands.old place band in
        (answer_of (edit_values bands.new) result ≡ answer)
        × (bands.new ≡ afterwards (λ v. v.bands) answer bands.old) }
{
    if bands.len() <= place as usize {
        return Err(Refusal::Place);
    }
    bands[place as usize] = band;
    Ok(place)
}

// Prices the first `count` entries of a distance column by the bands: each entry's price, and the total; or the refusal.
pub fn price(
    bands: &[Band],
    distance: &[u64],
    count: u32,
    prices: &mut [u32],
) -> Result<u64, Refusal>
    ensures { let answer = price_answer bands.now distance.now count prices.old in
        (answer_of (price_values prices.new) result ≡ answer)
        × (prices.new ≡ afterwards (λ v. v.prices) answer prices.old) }
{
    pricing::price_by(judging::gather(bands), distance, count, prices)
}
