// The forecast of room: for each place of the first list its partners no further than a limit in x, and all of them.
ghost use Rattle.std.specs.Prelude.{◌≡◌, ◌≤◌, length};
ghost use Rattle.site.specs.Answer.{afterwards, answer_of, refusal_of};
ghost use Rattle.site.specs.SiteList.{list_of};
ghost use Rattle.pairs.specs.Forecast.{forecast_refusal, forecast_answer, forecast_values};
ghost use Rattle.pairs.specs.Internal.{Across, PartnersWritten};

use super::{Run, window};
use site::{Refusal, SiteColumns};

// Writes the number of partners of each place into the column, which has room for them: the total.
fn write_partners(ax: &[i32], bx: &[i32], e: u32, partners: &mut [u32]) -> u64
    requires { (Across ax.now) × (Across bx.now) × (length ax.now ≤ length partners.old) }
    ensures { PartnersWritten ax.now bx.now e partners.old partners.new result }
{
    let mut total = 0;
    let mut run = Run { left: 0, right: 0 };
    for i in 0..ax.len() {
        run = window::next_run(ax, bx, i, run, e);
        let count = run.right - run.left;
        partners[i] = count as u32;
        total += count as u64;
    }
    total
}

// Whether a forecast is refused: for 1, 2 or 3 of each list, then for 6.
fn forecast_refusal(a: SiteColumns<'_>, b: SiteColumns<'_>, partners: &[u32]) -> Result<(), Refusal>
    ensures { refusal_of result ≡ forecast_refusal (list_of a.entry) (list_of b.entry) partners.now }
{
    site::lists_refusal(a, b)?;
    if partners.len() < a.x.len() {
        return Err(Refusal::Room);
    }
    Ok(())
}

// How many pairs of two lists are no further apart than `e` in x, in all and for each place of the first. (02 g.)
pub fn forecast(
    a: SiteColumns<'_>,
    b: SiteColumns<'_>,
    e: u32,
    partners: &mut [u32],
) -> Result<u64, Refusal>
    ensures { let answer = forecast_answer (list_of a.entry) (list_of b.entry) e partners.old in
        (answer_of (forecast_values partners.new) result ≡ answer)
        × (partners.new ≡ afterwards (λ v. v.partners) answer partners.old) }
{
    forecast_refusal(a, b, partners)?;
    Ok(write_partners(a.x, b.x, e, partners))
}
