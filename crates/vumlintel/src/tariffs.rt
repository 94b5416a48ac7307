// Price bands: editing a table of them, and pricing a case list from it.
ghost use Rattle.column.specs.Lent.{the, ◌of_mut◌};
ghost use Rattle.bands.specs.Bands.{band};
ghost use Rattle.bands.specs.Calls.{edit_values, edit_answer, price_values, price_answer};
ghost use Rattle.vumlintel.specs.Crosses.{Crosses};

use super::crossing::cross;
use bands::Band;

// Editing a table of bands: the record at a place is replaced, unjudged.
#[unsafe(no_mangle)]
pub extern "C" fn vumlintel_edit_band(
    bands: &mut [Band],
    place: u32,
    from: u32,
    to: u32,
    price: u32,
    edited: &mut u32,
) -> u32
    ensures { let answer = edit_answer bands.old place (band from to price) in
        Crosses answer result (the edit_values of_mut bands of_mut edited) }
{
    let answer = bands::edit(bands, place, Band { from, to, price });
    cross(answer, edited)
}

// Pricing a case list by a table of bands: each entry's price, and the total.
#[unsafe(no_mangle)]
pub extern "C" fn vumlintel_price(
    bands: &[Band],
    distance: &[u64],
    entries: u32,
    prices: &mut [u32],
    total: &mut u64,
) -> u32
    ensures { let answer = price_answer bands.now distance.now entries prices.old in
        Crosses answer result (the price_values of_mut prices of_mut total) }
{
    let answer = bands::price(bands, distance, entries, prices);
    cross(answer, total)
}
