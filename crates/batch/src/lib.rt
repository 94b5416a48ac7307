// Several jobs of a customer's campaign in one call.
#![tactic(auto)]

mod adding;
mod rows;
mod ways;

ghost use Rattle.std.specs.Prelude.{◌≡◌};
ghost use Rattle.site.specs.Answer.{afterwards, answer_of};
ghost use Rattle.site.specs.SiteList.{list_of};
ghost use Rattle.entry.specs.Results.{lent_results};
ghost use Rattle.batch.specs.Batch.{lent_batch, batch_answer, batch_done_values};

use customers::Grid;
use join::Counters;
use site::{Refusal, SiteColumns};

// What jobs add up to: how many were skipped, and the sum of each counter.
#[derive(Clone, Copy)]
pub struct Sums {
    pub skipped: u32,
    pub counters: Counters,
}

// What several jobs in one call answer: the grid, and what they add up to.
#[derive(Clone, Copy)]
pub struct BatchDone {
    pub grid: Grid,
    pub sums: Sums,
}

// Settles several jobs of a customer, one after another, each by the way of its number: the strips and the ways stand in three
// columns. A job at fault refuses them all. (02 m: one call for several jobs.)
#[tactic(auto, unfolding(site::specs::Answer::refusal_of, site::specs::Answer::number, site::specs::Answer::answer_of, site::specs::Answer::answer_unless, site::specs::Answer::afterwards, crate::specs::Batch::batch_answer))]
pub fn jobs(
    customer: u32,
    g: Grid,
    a: SiteColumns<'_>,
    b: SiteColumns<'_>,
    distance: &mut [u64],
    first: &mut [u32],
    second: &mut [u32],
    job_first: &[u32],
    job_second: &[u32],
    job_way: &[u32],
) -> Result<BatchDone, Refusal>
    ensures { let l = lent_results distance first second in
        let jobs = (lent_batch job_first job_second job_way).entry in
        let answer = batch_answer customer g (list_of a.entry) (list_of b.entry) l.entry jobs in
        (answer_of (batch_done_values l.exit) result ≡ answer) × (l.exit ≡ afterwards (λ v. v.results) answer l.entry) }
{
    rows::refusal(
        customer, g, a, b, distance, first, second, job_first, job_second, job_way,
    )?;
    let p = a.spots();
    let q = b.spots();
    Ok(rows::work(
        customer, g, p, q, distance, first, second, job_first, job_second, job_way,
    ))
}
