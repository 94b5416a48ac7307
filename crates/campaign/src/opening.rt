// Opening a customer's campaign.
ghost use Rattle.std.specs.Prelude.{◌≡◌, ◌≤◌, length};
ghost use Rattle.site.specs.SiteList.{list_of};
ghost use Rattle.site.specs.Answer.{refusal_of};
ghost use Rattle.entry.specs.Results.{results};
ghost use Rattle.campaign.specs.Calls.{grid_cuts, open_refusal, opened};

use super::{ends, soundness};
use customers::Grid;
use site::{Refusal, SiteColumns};

// Whether cut ends are the grid's.
#[tactic(auto, unfolding(crate::specs::Calls::grid_cuts))]
fn grid_cuts(g: Grid, first_ends: &[u32], second_ends: &[u32]) -> bool
    requires { (length first_ends.now ≤ 32) × (length second_ends.now ≤ 32) }
    ensures { result ≡ grid_cuts g first_ends.now second_ends.now }
{
    ends::same(g.first_strips, g.first_ends, first_ends)
        && ends::same(g.second_strips, g.second_ends, second_ends)
}

// Whether an opening is refused: for 15, 1, 2, 3, 4, 5, 6 or 7.
#[tactic(auto, unfolding(site::specs::Answer::refusal_of, site::specs::Answer::number, site::specs::Answer::or_else, crate::specs::Calls::open_refusal, crate::specs::Calls::lawful_cuts))]
pub(super) fn refusal(
    customer: u32,
    g: Grid,
    a: SiteColumns<'_>,
    b: SiteColumns<'_>,
    k: u32,
    first_ends: &[u32],
    second_ends: &[u32],
    distance: &[u64],
    first: &[u32],
    second: &[u32],
) -> Result<(), Refusal>
    ensures { let l = results distance.now first.now second.now in
        refusal_of result ≡ open_refusal customer g (list_of a.entry) (list_of b.entry) k first_ends.now second_ends.now l }
{
    soundness::caller_refusal(customer, a, b)?;
    if !entry::lawful_k(k) {
        return Err(Refusal::K);
    }
    if !ends::lawful_cuts(a.x.len(), b.x.len(), first_ends, second_ends)
        || !grid_cuts(g, first_ends, second_ends)
    {
        return Err(Refusal::Ends);
    }
    if !entry::room(k as usize, distance, first, second) {
        return Err(Refusal::Room);
    }
    if soundness::lawful_grid(g) {
        Ok(())
    } else {
        Err(Refusal::Unsound)
    }
}

// The grid with a customer's K, no entry of theirs and no job settled.
#[tactic(auto, unfolding(crate::specs::Calls::opened))]
pub(super) fn opened(customer: u32, g: Grid, k: u32) -> Grid
    ensures { result ≡ opened customer g k }
{
    let cleared = customers::cleared(customer, g.marks);
    customers::with_campaign(customer, k, 0, cleared, g)
}
