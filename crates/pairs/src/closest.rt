// The K list: the closest pairs of two lists.
ghost use Rattle.std.specs.Prelude.{◌≡◌};
ghost use Rattle.site.specs.Answer.{afterwards, answer_of, refusal_of};
ghost use Rattle.site.specs.SiteList.{list_of};
ghost use Rattle.entry.specs.Results.{results, lent_results};
ghost use Rattle.pairs.specs.KList.{k_list_refusal, k_list_answer, listed};

use super::Listed;
use join::Join;
use site::{Refusal, SiteColumns};

// Whether a K list is refused: for 1, 2 or 3 of each list, then for 4, then for 6.
fn k_list_refusal(
    a: SiteColumns<'_>,
    b: SiteColumns<'_>,
    k: u32,
    distance: &[u64],
    first: &[u32],
    second: &[u32],
) -> Result<(), Refusal>
    ensures { let r = results distance.now first.now second.now in
        refusal_of result ≡ k_list_refusal (list_of a.entry) (list_of b.entry) k r }
{
    site::lists_refusal(a, b)?;
    if !entry::lawful_k(k) {
        return Err(Refusal::K);
    }
    if !entry::room(k as usize, distance, first, second) {
        return Err(Refusal::Room);
    }
    Ok(())
}

// The first K pairs of two lists by rank, or all where there are fewer, by the way named. (01: K list.)
pub fn k_list(
    way: Join,
    a: SiteColumns<'_>,
    b: SiteColumns<'_>,
    k: u32,
    distance: &mut [u64],
    first: &mut [u32],
    second: &mut [u32],
) -> Result<Listed, Refusal>
    ensures { let l = lent_results distance first second in
        let answer = k_list_answer way (list_of a.entry) (list_of b.entry) k l.entry in
        (answer_of (listed l.exit) result ≡ answer) × (l.exit ≡ afterwards (λ v. v.results) answer l.entry) }
{
    k_list_refusal(a, b, k, distance, first, second)?;
    let n = a.x.len();
    let m = b.x.len();
    let p = a.spots();
    let q = b.spots();
    let joined = join::run(
        way, p, q, 0, n, 0, m, k as usize, 0, distance, first, second,
    );
    Ok(Listed {
        count: joined.entries,
        counters: joined.counters,
    })
}
