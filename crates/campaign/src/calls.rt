// The calls on a grid and on a customer's campaign.
#![tactic(auto, unfolding(site::specs::Answer::answer_of, site::specs::Answer::answer_unless, site::specs::Answer::afterwards, site::specs::Answer::refusal_of, site::specs::Answer::number, crate::specs::Grid::settled_jobs, crate::specs::Calls::prepare_answer, crate::specs::Calls::open_answer, crate::specs::Calls::lower_answer, crate::specs::Calls::status_answer, crate::specs::Calls::job_answer))]

ghost use Rattle.std.specs.Prelude.{◌≡◌};
ghost use Rattle.site.specs.Answer.{afterwards, answer_of};
ghost use Rattle.site.specs.SiteList.{list_of};
ghost use Rattle.entry.specs.Results.{results, lent_results};
ghost use Rattle.campaign.specs.Grid.{job_of};
ghost use Rattle.campaign.specs.Calls.{
  prepare_answer,
  open_answer,
  lower_answer,
  status_answer,
  status_of,
  job_answer,
  job_done_values,
};

use super::{JobDone, Status, jobs, lowering, marks, opening, preparing, soundness};
use customers::Grid;
use join::Join;
use site::{Refusal, SiteColumns};

// Prepares a grid: the cut ends of each list, no job settled, no customer's campaign open. (02 e: preparing.)
pub fn prepare(
    a: SiteColumns<'_>,
    b: SiteColumns<'_>,
    first_ends: &[u32],
    second_ends: &[u32],
) -> Result<Grid, Refusal>
    ensures { answer_of (λ g. g) result ≡ prepare_answer (list_of a.entry) (list_of b.entry) first_ends.now second_ends.now }
{
    preparing::refusal(a, b, first_ends, second_ends)?;
    Ok(preparing::prepared(first_ends, second_ends))
}

// Opens a customer's campaign: K, no job settled, no entry. No column is touched. (01: opening.)
pub fn open(
    customer: u32,
    g: Grid,
    a: SiteColumns<'_>,
    b: SiteColumns<'_>,
    k: u32,
    first_ends: &[u32],
    second_ends: &[u32],
    distance: &[u64],
    first: &[u32],
    second: &[u32],
) -> Result<Grid, Refusal>
    ensures { let l = results distance.now first.now second.now in
        answer_of (λ g. g) result
        ≡ open_answer customer g (list_of a.entry) (list_of b.entry) k first_ends.now second_ends.now l }
{
    opening::refusal(
        customer,
        g,
        a,
        b,
        k,
        first_ends,
        second_ends,
        distance,
        first,
        second,
    )?;
    Ok(opening::opened(customer, g, k))
}

// Lowers a customer's K: no job is settled or opened again, and the entries past the smaller K are given up. No column is
// touched. (02 j.)
pub fn lower_k(
    customer: u32,
    g: Grid,
    a: SiteColumns<'_>,
    b: SiteColumns<'_>,
    k: u32,
    distance: &[u64],
    first: &[u32],
    second: &[u32],
) -> Result<Grid, Refusal>
    ensures { let l = results distance.now first.now second.now in
        answer_of (λ g. g) result ≡ lower_answer customer g (list_of a.entry) (list_of b.entry) k l }
{
    lowering::refusal(customer, g, a, b, k, distance, first, second)?;
    Ok(customers::lowered(customer, g, k))
}

// How far a customer's campaign is: jobs settled, jobs in all, entries and K. (01: status.)
pub fn status(
    customer: u32,
    g: Grid,
    a: SiteColumns<'_>,
    b: SiteColumns<'_>,
    distance: &[u64],
    first: &[u32],
    second: &[u32],
) -> Result<Status, Refusal>
    ensures { let l = results distance.now first.now second.now in
        answer_of status_of result ≡ status_answer customer g (list_of a.entry) (list_of b.entry) l }
{
    soundness::refusal(customer, g, a, b, distance, first, second)?;
    let c = customers::campaign_as(customer, g);
    Ok(Status {
        settled: marks::settled_jobs(&c.marks, c.first_strips as usize, c.second_strips as usize),
        jobs: c.first_strips * c.second_strips,
        entries: c.entries,
        k: c.k,
    })
}

// Settles a customer's job (s, t), swept or skipped: their list becomes the first K of its entries and the job's pairs. (01: job.)
pub fn job(
    customer: u32,
    g: Grid,
    a: SiteColumns<'_>,
    b: SiteColumns<'_>,
    distance: &mut [u64],
    first: &mut [u32],
    second: &mut [u32],
    s: u32,
    t: u32,
    way: Join,
) -> Result<JobDone, Refusal>
    ensures { let l = lent_results distance first second in
        let answer = job_answer way customer g (list_of a.entry) (list_of b.entry) l.entry (job_of s t) in
        (answer_of (job_done_values l.exit) result ≡ answer) × (l.exit ≡ afterwards (λ v. v.results) answer l.entry) }
{
    jobs::refusal(customer, g, a, b, distance, first, second, s, t)?;
    let p = a.spots();
    let q = b.spots();
    Ok(jobs::work(customer, g, p, q, distance, first, second, s, t, way))
}
