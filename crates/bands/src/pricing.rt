// The entries of a distance column priced by a tariff.
ghost use Rattle.std.specs.Prelude.{◌≡◌, map, ◌<◌, ltb};
ghost use Rattle.order.specs.Lists.{all, sum};
ghost use Rattle.column.specs.Column.{overwritten};
ghost use Rattle.site.specs.Answer.{afterwards, answer_of, refusal_of};
ghost use Rattle.site.specs.Site.{square};
ghost use Rattle.bands.specs.Bands.{last_to};
ghost use Rattle.bands.specs.Calls.{entries_refusal, priced_by, price_values};
ghost use Rattle.bands.specs.Internal.{
  band_at,
  price_at,
  Rising,
  Covered,
  Priceable,
  Chargeable,
  tariff_of,
};

use super::{Band, Tariff};
use site::Refusal;

// Which of 64 ascending ends is the first above a squared distance: six halvings, whatever the number of bands. No step
// jumps: which half goes on is as good as random, and a wrong guess costs more than a step.
fn search(ends: &[u64], d: u64) -> usize
    requires { (Rising ends.now) × (Covered ends.now d) }
    ensures { result ≡ band_at ends.now d }
{
    let mut low = 0;
    let mut size = 64;
    while 1 < size {
        let half = size / 2;
        low += half * (ends[low + half - 1] <= d) as usize;
        size -= half;
    }
    low
}

// The same, looking first at `at`, the answer for the entry before: entries that ascend by distance are mostly found
// there, and any others by halving.
fn band_at(ends: &[u64], at: usize, d: u64) -> usize
    requires { (Rising ends.now) × (Covered ends.now d) × (at < 64) }
    ensures { result ≡ band_at ends.now d }
{
    if ends[at] <= d || (0 < at && d < ends[at - 1]) {
        search(ends, d)
    } else {
        at
    }
}

// Writes the price of each distance into the column: the total.
fn write_prices(ends: &[u64], rates: &[u32], distance: &[u64], prices: &mut [u32]) -> u64
    requires { Chargeable ends.now rates.now distance.now prices.old }
    ensures { let each = map (price_at ends.now rates.now) distance.now in
        (prices.new ≡ overwritten each prices.old) × (result ≡ sum each) }
{
    let mut total = 0;
    let mut at = 0;
    for (i, &d) in distance.iter().enumerate() {
        at = band_at(ends, at, d);
        let price = rates[at];
        prices[i] = price;
        total += price as u64;
    }
    total
}

// Whether each squared distance is below the square of the last band's end.
fn all_below(column: &[u64]) -> bool
    ensures { result ≡ all (λ d. ltb d (square last_to)) column.now }
{
    column.iter().all(|&d| d < Band::LAST_TO_SQUARED)
}

// Whether the entries of a distance column are refused: for 6, then 7.
fn entries_refusal(distance: &[u64], count: u32, prices: &[u32]) -> Result<(), Refusal>
    ensures { refusal_of result ≡ entries_refusal distance.now count prices.now }
{
    let n = count as usize;
    if prices.len() < n || distance.len() < n || 4_096 < n {
        return Err(Refusal::Room);
    }
    if all_below(&distance[..n]) {
        Ok(())
    } else {
        Err(Refusal::Unsound)
    }
}

// Prices the first `count` entries of a distance column by a tariff: each entry's price, and the total; or the refusal.
pub(super) fn price_by(
    tariff: Tariff,
    distance: &[u64],
    count: u32,
    prices: &mut [u32],
) -> Result<u64, Refusal>
    requires { Priceable (tariff_of tariff) }
    ensures { let price = price_at tariff.ends tariff.prices in
        let answer = priced_by (refusal_of tariff.refusal) price distance.now count prices.old in
        (answer_of (price_values prices.new) result ≡ answer)
        × (prices.new ≡ afterwards (λ v. v.prices) answer prices.old) }
{
    tariff.refusal?;
    entries_refusal(distance, count, prices)?;
    let distance = &distance[..count as usize];
    Ok(write_prices(&tariff.ends, &tariff.prices, distance, prices))
}
