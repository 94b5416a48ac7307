// Preparing a grid.
ghost use Rattle.std.specs.Prelude.{◌≡◌, ◌≤◌, length};
ghost use Rattle.site.specs.SiteList.{list_of};
ghost use Rattle.site.specs.Answer.{refusal_of};
ghost use Rattle.campaign.specs.Calls.{prepare_refusal, prepared};

use super::ends;
use customers::Grid;
use site::{Refusal, SiteColumns};

// Whether a preparing is refused: for 1, 2, 3 or 5.
#[tactic(auto, unfolding(site::specs::Answer::refusal_of, site::specs::Answer::number, site::specs::Answer::or_else, crate::specs::Calls::prepare_refusal, crate::specs::Calls::lawful_cuts))]
pub(super) fn refusal(
    a: SiteColumns<'_>,
    b: SiteColumns<'_>,
    first_ends: &[u32],
    second_ends: &[u32],
) -> Result<(), Refusal>
    ensures { refusal_of result ≡ prepare_refusal (list_of a.entry) (list_of b.entry) first_ends.now second_ends.now }
{
    site::lists_refusal(a, b)?;
    if ends::lawful_cuts(a.x.len(), b.x.len(), first_ends, second_ends) {
        Ok(())
    } else {
        Err(Refusal::Ends)
    }
}

// A grid with these ends, and all else 0.
pub(super) fn prepared(first_ends: &[u32], second_ends: &[u32]) -> Grid
    requires { (length first_ends.now ≤ 32) × (length second_ends.now ≤ 32) }
    ensures { result ≡ prepared first_ends.now second_ends.now }
{
    Grid {
        first_strips: first_ends.len() as u32,
        second_strips: second_ends.len() as u32,
        first_ends: ends::in_slots(first_ends),
        second_ends: ends::in_slots(second_ends),
        marks: [0; 1024],
        k1: 0,
        entries1: 0,
        k2: 0,
        entries2: 0,
    }
}
