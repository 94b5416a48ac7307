// Lowering the K of a customer's campaign. (02 j)
ghost use Rattle.std.specs.Prelude.{◌≡◌};
ghost use Rattle.site.specs.SiteList.{list_of};
ghost use Rattle.site.specs.Answer.{refusal_of};
ghost use Rattle.entry.specs.Results.{results};
ghost use Rattle.campaign.specs.Calls.{lower_refusal};

use super::soundness;
use customers::Grid;
use site::{Refusal, SiteColumns};

// Whether a smaller K is refused: for 15, 1, 2, 3, 4 or 7.
#[tactic(auto, unfolding(site::specs::Answer::refusal_of, site::specs::Answer::number, site::specs::Answer::or_else, crate::specs::Calls::lower_refusal))]
pub(super) fn refusal(
    customer: u32,
    g: Grid,
    a: SiteColumns<'_>,
    b: SiteColumns<'_>,
    k: u32,
    distance: &[u64],
    first: &[u32],
    second: &[u32],
) -> Result<(), Refusal>
    ensures { let l = results distance.now first.now second.now in
        refusal_of result ≡ lower_refusal customer g (list_of a.entry) (list_of b.entry) k l }
{
    soundness::caller_refusal(customer, a, b)?;
    let c = customers::campaign_as(customer, g);
    if !entry::k_up_to(c.k, k) {
        return Err(Refusal::K);
    }
    let p = a.spots();
    let q = b.spots();
    soundness::keeper_refusal(customer, g, p, q, distance, first, second)
}
