// The jobs of a call, one under another: whether they are refused, and the work on them.
ghost use Rattle.std.specs.Prelude.{◌≡◌, ◌≤◌, ◌<◌, length, set};
ghost use Rattle.site.specs.SiteList.{list_of};
ghost use Rattle.site.specs.Answer.{refusal_of};
ghost use Rattle.sweep.specs.Terms.{NumberedLists};
ghost use Rattle.entry.specs.Results.{results, lent_results};
ghost use Rattle.customers.specs.Customers.{campaign_as};
ghost use Rattle.campaign.specs.Grid.{job_of, mark_of};
ghost use Rattle.campaign.specs.Terms.{BothLists};
ghost use Rattle.batch.specs.Batch.{batch_of, lent_batch, rows_of, rows_refusal, batch_refusal, no_job, accepted_rows, batch_done_values};
ghost use Rattle.batch.specs.Internal.{EqualColumns, RowsAsked};

use super::{BatchDone, adding, ways};
use customers::Grid;
use site::{Refusal, SiteColumns, Spots};

// Whether the first job at fault is refused: for 8, then 9. A job further up counts as settled.
#[tactic(auto, unfolding(site::specs::Answer::refusal_of, site::specs::Answer::number, site::specs::Answer::or_else, crate::specs::Batch::rows_refusal))]
fn first_fault(
    rows: u32,
    cols: u32,
    marks: [u8; 1024],
    job_first: &[u32],
    job_second: &[u32],
    job_way: &[u32],
) -> Result<(), Refusal>
    requires rows_bound { (rows ≤ 32) × (cols ≤ 32) }
    requires equal_columns { EqualColumns job_first.now job_second.now job_way.now }
    ensures { refusal_of result ≡ rows_refusal rows cols marks (rows_of (lent_batch job_first job_second job_way).entry) }
{
    let mut settled = marks;
    for i in 0..job_way.len() {
        let s = job_first[i];
        let t = job_second[i];
        if !ways::is_way(job_way[i]) {
            return Err(Refusal::Place);
        }
        campaign::jobs::fault(rows, cols, &settled, s, t)?;
        settled[32 * s as usize + t as usize] = 1;
    }
    Ok(())
}

// Whether several jobs are refused: for 15, 1, 2, 3, 7, 8 or 9.
#[tactic(auto, unfolding(site::specs::Answer::refusal_of, site::specs::Answer::number, site::specs::Answer::or_else, crate::specs::Batch::batch_refusal, crate::specs::Batch::equal_columns))]
pub(super) fn refusal(
    customer: u32,
    g: Grid,
    a: SiteColumns<'_>,
    b: SiteColumns<'_>,
    distance: &[u64],
    first: &[u32],
    second: &[u32],
    job_first: &[u32],
    job_second: &[u32],
    job_way: &[u32],
) -> Result<(), Refusal>
    ensures { let l = results distance.now first.now second.now in
        let jobs = (lent_batch job_first job_second job_way).entry in
        refusal_of result ≡ batch_refusal customer g (list_of a.entry) (list_of b.entry) l jobs }
{
    campaign::soundness::refusal(customer, g, a, b, distance, first, second)?;
    if job_first.len() != job_way.len() || job_second.len() != job_way.len() {
        return Err(Refusal::Place);
    }
    let c = customers::campaign_as(customer, g);
    first_fault(
        g.first_strips,
        g.second_strips,
        c.marks,
        job_first,
        job_second,
        job_way,
    )
}

// Does several jobs that are not refused, one after another.
pub(super) fn work(
    customer: u32,
    g: Grid,
    a: Spots<'_>,
    b: Spots<'_>,
    distance: &mut [u64],
    first: &mut [u32],
    second: &mut [u32],
    job_first: &[u32],
    job_second: &[u32],
    job_way: &[u32],
) -> BatchDone
    requires both_lists { BothLists a b }
    requires equal_columns { EqualColumns job_first.now job_second.now job_way.now }
    requires rows_asked { RowsAsked (campaign_as customer g) (length a.x.now) (length b.x.now)
        (results distance.old first.old second.old)
        (rows_of (batch_of job_first.now job_second.now job_way.now)) }
    ensures { let l = lent_results distance first second in
        let rows = rows_of (lent_batch job_first job_second job_way).entry in
        NumberedLists a.entry b.entry (λ p q.
        batch_done_values l.exit result ≡ accepted_rows customer p q (no_job g l.entry) rows) }
{
    let mut grid = g;
    let mut sums = adding::no_sums();
    for i in 0..job_way.len() {
        let s = job_first[i];
        let t = job_second[i];
        let way = ways::way_of(job_way[i]);
        let job = campaign::jobs::work(customer, grid, a, b, distance, first, second, s, t, way);
        grid = job.grid;
        sums = adding::sums_with(sums, job.outcome);
    }
    BatchDone { grid, sums }
}
