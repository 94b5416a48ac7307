// Preparing a grid, opening a customer's campaign on it, a smaller K, its jobs, one or several in a call, and its status.
// A grid crosses in its parts, each behind a reference.
ghost use Rattle.std.specs.Prelude.{◌≡◌};
ghost use Rattle.column.specs.Lent.{the, ◌with◌, ◌of_mut◌};
ghost use Rattle.site.specs.Answer.{answer_of};
ghost use Rattle.site.specs.SiteList.{lent_list};
ghost use Rattle.entry.specs.Results.{results, lent_results};
ghost use Rattle.sweep.specs.declared.Way.TheVariants.{Classic, ReverseRun};
ghost use Rattle.join.specs.declared.Join.TheVariants.{Sweep, Halves};
ghost use Rattle.join.specs.Join.{counts, by_sweep, by_halves};
ghost use Rattle.customers.specs.Customers.{grid_of};
ghost use Rattle.campaign.specs.Grid.{job_of};
ghost use Rattle.campaign.specs.Calls.{
  prepare_answer,
  open_answer,
  lower_answer,
  job_values,
  job_answer,
  swept_by,
  counts_by,
  status_values,
  status_answer,
};
ghost use Rattle.batch.specs.Batch.{lent_batch, batch_values, batch_answer};
ghost use Rattle.vumlintel.specs.Crosses.{Crosses};
ghost use Rattle.vumlintel.specs.Lent.{lent_grid};

use super::crossing::put_counters;
use super::lists::list;
use campaign::Outcome;
use customers::Grid;
use join::Join;
use site::Refusal;
use sweep::Way;

// A grid of its parts.
fn get(
    first_strips: &u32,
    second_strips: &u32,
    first_ends: &[u32; 32],
    second_ends: &[u32; 32],
    marks: &[u8; 1024],
    k1: &u32,
    entries1: &u32,
    k2: &u32,
    entries2: &u32,
) -> Grid
    ensures { result ≡ grid_of first_strips.now second_strips.now first_ends.now second_ends.now marks.now
        k1.now entries1.now k2.now entries2.now }
{
    Grid {
        first_strips: *first_strips,
        second_strips: *second_strips,
        first_ends: *first_ends,
        second_ends: *second_ends,
        marks: *marks,
        k1: *k1,
        entries1: *entries1,
        k2: *k2,
        entries2: *entries2,
    }
}

// A grid into its parts.
fn put(
    g: Grid,
    first_strips: &mut u32,
    second_strips: &mut u32,
    first_ends: &mut [u32; 32],
    second_ends: &mut [u32; 32],
    marks: &mut [u8; 1024],
    k1: &mut u32,
    entries1: &mut u32,
    k2: &mut u32,
    entries2: &mut u32,
)
    ensures { let parts = lent_grid first_strips second_strips first_ends second_ends marks k1 entries1 k2 entries2 in
        parts.exit ≡ g }
{
    let Grid {
        first_ends: first_cut,
        second_ends: second_cut,
        marks: marked,
        ..
    } = g;
    *first_strips = g.first_strips;
    *second_strips = g.second_strips;
    *first_ends = first_cut;
    *second_ends = second_cut;
    *marks = marked;
    *k1 = g.k1;
    *entries1 = g.entries1;
    *k2 = g.k2;
    *entries2 = g.entries2;
}

// The grid that a call answers, across the boundary.
fn store(
    answer: Result<Grid, Refusal>,
    first_strips: &mut u32,
    second_strips: &mut u32,
    first_ends: &mut [u32; 32],
    second_ends: &mut [u32; 32],
    marks: &mut [u8; 1024],
    k1: &mut u32,
    entries1: &mut u32,
    k2: &mut u32,
    entries2: &mut u32,
) -> u32
    ensures { let parts = lent_grid first_strips second_strips first_ends second_ends marks k1 entries1 k2 entries2 in
        Crosses (answer_of (λ g. g) answer) result parts }
{
    match answer {
        Ok(g) => {
            put(
                g,
                first_strips,
                second_strips,
                first_ends,
                second_ends,
                marks,
                k1,
                entries1,
                k2,
                entries2,
            );
            0
        }
        Err(refusal) => refusal.number(),
    }
}

// How a job ended, across the boundary: 1 for swept and 0 for skipped, and the counters.
fn put_outcome(
    outcome: Outcome,
    swept: &mut u32,
    looks: &mut u64,
    distances: &mut u64,
    range_pairs: &mut u64,
)
    ensures { (swept.new ≡ swept_by outcome)
        × ((the counts of_mut looks of_mut distances of_mut range_pairs).exit ≡ counts_by outcome) }
{
    match outcome {
        Outcome::Swept(counters) => {
            *swept = 1;
            put_counters(counters, looks, distances, range_pairs);
        }
        Outcome::Skipped => {
            *swept = 0;
            *looks = 0;
            *distances = 0;
            *range_pairs = 0;
        }
    }
}

// Preparing: the grid.
#[unsafe(no_mangle)]
pub extern "C" fn vumlintel_prepare(
    ax: &[i32],
    ay: &[i32],
    an: &[u32],
    ah: &[i32],
    bx: &[i32],
    by: &[i32],
    bn: &[u32],
    bh: &[i32],
    first_cuts: &[u32],
    second_cuts: &[u32],
    first_strips: &mut u32,
    second_strips: &mut u32,
    first_ends: &mut [u32; 32],
    second_ends: &mut [u32; 32],
    marks: &mut [u8; 1024],
    k1: &mut u32,
    entries1: &mut u32,
    k2: &mut u32,
    entries2: &mut u32,
) -> u32
    ensures { let g = lent_grid first_strips second_strips first_ends second_ends marks k1 entries1 k2 entries2 in
        let a = (lent_list ax ay an ah).entry in
        let b = (lent_list bx by bn bh).entry in
        Crosses (prepare_answer a b first_cuts.now second_cuts.now) result g }
{
    let a = list(ax, ay, an, ah);
    let b = list(bx, by, bn, bh);
    let prepared = campaign::calls::prepare(a, b, first_cuts, second_cuts);
    store(
        prepared,
        first_strips,
        second_strips,
        first_ends,
        second_ends,
        marks,
        k1,
        entries1,
        k2,
        entries2,
    )
}

// Opening: the grid with the customer's campaign.
#[unsafe(no_mangle)]
pub extern "C" fn vumlintel_open(
    first_strips: &mut u32,
    second_strips: &mut u32,
    first_ends: &mut [u32; 32],
    second_ends: &mut [u32; 32],
    marks: &mut [u8; 1024],
    k1: &mut u32,
    entries1: &mut u32,
    k2: &mut u32,
    entries2: &mut u32,
    customer: u32,
    ax: &[i32],
    ay: &[i32],
    an: &[u32],
    ah: &[i32],
    bx: &[i32],
    by: &[i32],
    bn: &[u32],
    bh: &[i32],
    k: u32,
    first_cuts: &[u32],
    second_cuts: &[u32],
    distance: &[u64],
    first: &[u32],
    second: &[u32],
) -> u32
    ensures { let g = lent_grid first_strips second_strips first_ends second_ends marks k1 entries1 k2 entries2 in
        let a = (lent_list ax ay an ah).entry in
        let b = (lent_list bx by bn bh).entry in
        let l = results distance.now first.now second.now in
        let answer = open_answer customer g.entry a b k first_cuts.now second_cuts.now l in
        Crosses answer result g }
{
    let g = get(
        first_strips,
        second_strips,
        first_ends,
        second_ends,
        marks,
        k1,
        entries1,
        k2,
        entries2,
    );
    let a = list(ax, ay, an, ah);
    let b = list(bx, by, bn, bh);
    let opened = campaign::calls::open(
        customer,
        g,
        a,
        b,
        k,
        first_cuts,
        second_cuts,
        distance,
        first,
        second,
    );
    store(
        opened,
        first_strips,
        second_strips,
        first_ends,
        second_ends,
        marks,
        k1,
        entries1,
        k2,
        entries2,
    )
}

// A smaller K: the grid with the customer's campaign cut to it.
#[unsafe(no_mangle)]
pub extern "C" fn vumlintel_lower_k(
    first_strips: &mut u32,
    second_strips: &mut u32,
    first_ends: &mut [u32; 32],
    second_ends: &mut [u32; 32],
    marks: &mut [u8; 1024],
    k1: &mut u32,
    entries1: &mut u32,
    k2: &mut u32,
    entries2: &mut u32,
    customer: u32,
    ax: &[i32],
    ay: &[i32],
    an: &[u32],
    ah: &[i32],
    bx: &[i32],
    by: &[i32],
    bn: &[u32],
    bh: &[i32],
    k: u32,
    distance: &[u64],
    first: &[u32],
    second: &[u32],
) -> u32
    ensures { let g = lent_grid first_strips second_strips first_ends second_ends marks k1 entries1 k2 entries2 in
        let a = (lent_list ax ay an ah).entry in
        let b = (lent_list bx by bn bh).entry in
        let l = results distance.now first.now second.now in
        Crosses (lower_answer customer g.entry a b k l) result g }
{
    let g = get(
        first_strips,
        second_strips,
        first_ends,
        second_ends,
        marks,
        k1,
        entries1,
        k2,
        entries2,
    );
    let a = list(ax, ay, an, ah);
    let b = list(bx, by, bn, bh);
    let lowered = campaign::calls::lower_k(customer, g, a, b, k, distance, first, second);
    store(
        lowered,
        first_strips,
        second_strips,
        first_ends,
        second_ends,
        marks,
        k1,
        entries1,
        k2,
        entries2,
    )
}

// A customer's job by any of the three ways: the grid, whether it was swept, and the counters. A refused one stores nothing.
fn job(
    first_strips: &mut u32,
    second_strips: &mut u32,
    first_ends: &mut [u32; 32],
    second_ends: &mut [u32; 32],
    marks: &mut [u8; 1024],
    k1: &mut u32,
    entries1: &mut u32,
    k2: &mut u32,
    entries2: &mut u32,
    customer: u32,
    ax: &[i32],
    ay: &[i32],
    an: &[u32],
    ah: &[i32],
    bx: &[i32],
    by: &[i32],
    bn: &[u32],
    bh: &[i32],
    distance: &mut [u64],
    first: &mut [u32],
    second: &mut [u32],
    first_strip: u32,
    second_strip: u32,
    way: Join,
    swept: &mut u32,
    looks: &mut u64,
    distances: &mut u64,
    range_pairs: &mut u64,
) -> u32
    ensures { let g = lent_grid first_strips second_strips first_ends second_ends marks k1 entries1 k2 entries2 in
        let a = (lent_list ax ay an ah).entry in
        let b = (lent_list bx by bn bh).entry in
        let l = lent_results distance first second in
        let answer = job_answer way customer g.entry a b l.entry (job_of first_strip second_strip) in
        let counters = the counts of_mut looks of_mut distances of_mut range_pairs in
        Crosses answer result (the job_values with g with l of_mut swept with counters) }
{
    let g = get(
        first_strips,
        second_strips,
        first_ends,
        second_ends,
        marks,
        k1,
        entries1,
        k2,
        entries2,
    );
    let a = list(ax, ay, an, ah);
    let b = list(bx, by, bn, bh);
    let answer = campaign::calls::job(
        customer,
        g,
        a,
        b,
        distance,
        first,
        second,
        first_strip,
        second_strip,
        way,
    );
    match answer {
        Ok(done) => {
            put_outcome(done.outcome, swept, looks, distances, range_pairs);
            put(
                done.grid,
                first_strips,
                second_strips,
                first_ends,
                second_ends,
                marks,
                k1,
                entries1,
                k2,
                entries2,
            );
            0
        }
        Err(refused) => refused.number(),
    }
}

// A job by the classic sweep: the grid, whether it was swept, the looks and the distances.
#[unsafe(no_mangle)]
pub extern "C" fn vumlintel_job_classic(
    first_strips: &mut u32,
    second_strips: &mut u32,
    first_ends: &mut [u32; 32],
    second_ends: &mut [u32; 32],
    marks: &mut [u8; 1024],
    k1: &mut u32,
    entries1: &mut u32,
    k2: &mut u32,
    entries2: &mut u32,
    customer: u32,
    ax: &[i32],
    ay: &[i32],
    an: &[u32],
    ah: &[i32],
    bx: &[i32],
    by: &[i32],
    bn: &[u32],
    bh: &[i32],
    distance: &mut [u64],
    first: &mut [u32],
    second: &mut [u32],
    first_strip: u32,
    second_strip: u32,
    swept: &mut u32,
    looks: &mut u64,
    distances: &mut u64,
) -> u32
    ensures { let g = lent_grid first_strips second_strips first_ends second_ends marks k1 entries1 k2 entries2 in
        let a = (lent_list ax ay an ah).entry in
        let b = (lent_list bx by bn bh).entry in
        let l = lent_results distance first second in
        let answer = job_answer (Sweep Classic) customer g.entry a b l.entry (job_of first_strip second_strip) in
        let counters = the by_sweep of_mut looks of_mut distances in
        Crosses answer result (the job_values with g with l of_mut swept with counters) }
{
    let mut range_pairs: u64 = 0;
    job(
        first_strips,
        second_strips,
        first_ends,
        second_ends,
        marks,
        k1,
        entries1,
        k2,
        entries2,
        customer,
        ax,
        ay,
        an,
        ah,
        bx,
        by,
        bn,
        bh,
        distance,
        first,
        second,
        first_strip,
        second_strip,
        Join::Sweep(Way::Classic),
        swept,
        looks,
        distances,
        &mut range_pairs,
    )
}

// A job by Reverse Run: the grid, whether it was swept, the looks and the distances.
#[unsafe(no_mangle)]
pub extern "C" fn vumlintel_job_reverse_run(
    first_strips: &mut u32,
    second_strips: &mut u32,
    first_ends: &mut [u32; 32],
    second_ends: &mut [u32; 32],
    marks: &mut [u8; 1024],
    k1: &mut u32,
    entries1: &mut u32,
    k2: &mut u32,
    entries2: &mut u32,
    customer: u32,
    ax: &[i32],
    ay: &[i32],
    an: &[u32],
    ah: &[i32],
    bx: &[i32],
    by: &[i32],
    bn: &[u32],
    bh: &[i32],
    distance: &mut [u64],
    first: &mut [u32],
    second: &mut [u32],
    first_strip: u32,
    second_strip: u32,
    swept: &mut u32,
    looks: &mut u64,
    distances: &mut u64,
) -> u32
    ensures { let g = lent_grid first_strips second_strips first_ends second_ends marks k1 entries1 k2 entries2 in
        let a = (lent_list ax ay an ah).entry in
        let b = (lent_list bx by bn bh).entry in
        let l = lent_results distance first second in
        let answer = job_answer (Sweep ReverseRun) customer g.entry a b l.entry (job_of first_strip second_strip) in
        let counters = the by_sweep of_mut looks of_mut distances in
        Crosses answer result (the job_values with g with l of_mut swept with counters) }
{
    let mut range_pairs: u64 = 0;
    job(
        first_strips,
        second_strips,
        first_ends,
        second_ends,
        marks,
        k1,
        entries1,
        k2,
        entries2,
        customer,
        ax,
        ay,
        an,
        ah,
        bx,
        by,
        bn,
        bh,
        distance,
        first,
        second,
        first_strip,
        second_strip,
        Join::Sweep(Way::ReverseRun),
        swept,
        looks,
        distances,
        &mut range_pairs,
    )
}

// A job by halves: the grid, whether it was swept, and the range pairs.
#[unsafe(no_mangle)]
pub extern "C" fn vumlintel_job_halves(
    first_strips: &mut u32,
    second_strips: &mut u32,
    first_ends: &mut [u32; 32],
    second_ends: &mut [u32; 32],
    marks: &mut [u8; 1024],
    k1: &mut u32,
    entries1: &mut u32,
    k2: &mut u32,
    entries2: &mut u32,
    customer: u32,
    ax: &[i32],
    ay: &[i32],
    an: &[u32],
    ah: &[i32],
    bx: &[i32],
    by: &[i32],
    bn: &[u32],
    bh: &[i32],
    distance: &mut [u64],
    first: &mut [u32],
    second: &mut [u32],
    first_strip: u32,
    second_strip: u32,
    swept: &mut u32,
    range_pairs: &mut u64,
) -> u32
    ensures { let g = lent_grid first_strips second_strips first_ends second_ends marks k1 entries1 k2 entries2 in
        let a = (lent_list ax ay an ah).entry in
        let b = (lent_list bx by bn bh).entry in
        let l = lent_results distance first second in
        let answer = job_answer Halves customer g.entry a b l.entry (job_of first_strip second_strip) in
        let counters = the by_halves of_mut range_pairs in
        Crosses answer result (the job_values with g with l of_mut swept with counters) }
{
    let mut looks: u64 = 0;
    let mut distances: u64 = 0;
    job(
        first_strips,
        second_strips,
        first_ends,
        second_ends,
        marks,
        k1,
        entries1,
        k2,
        entries2,
        customer,
        ax,
        ay,
        an,
        ah,
        bx,
        by,
        bn,
        bh,
        distance,
        first,
        second,
        first_strip,
        second_strip,
        Join::Halves,
        swept,
        &mut looks,
        &mut distances,
        range_pairs,
    )
}

// Several jobs in one call: the grid, how many were skipped, and the sums of looks, distances and range pairs.
#[unsafe(no_mangle)]
pub extern "C" fn vumlintel_jobs(
    first_strips: &mut u32,
    second_strips: &mut u32,
    first_ends: &mut [u32; 32],
    second_ends: &mut [u32; 32],
    marks: &mut [u8; 1024],
    k1: &mut u32,
    entries1: &mut u32,
    k2: &mut u32,
    entries2: &mut u32,
    customer: u32,
    ax: &[i32],
    ay: &[i32],
    an: &[u32],
    ah: &[i32],
    bx: &[i32],
    by: &[i32],
    bn: &[u32],
    bh: &[i32],
    distance: &mut [u64],
    first: &mut [u32],
    second: &mut [u32],
    job_first: &[u32],
    job_second: &[u32],
    job_way: &[u32],
    skipped: &mut u32,
    looks: &mut u64,
    distances: &mut u64,
    range_pairs: &mut u64,
) -> u32
    ensures { let g = lent_grid first_strips second_strips first_ends second_ends marks k1 entries1 k2 entries2 in
        let a = (lent_list ax ay an ah).entry in
        let b = (lent_list bx by bn bh).entry in
        let l = lent_results distance first second in
        let jobs = (lent_batch job_first job_second job_way).entry in
        let counters = the counts of_mut looks of_mut distances of_mut range_pairs in
        Crosses (batch_answer customer g.entry a b l.entry jobs) result
        (the batch_values with g with l of_mut skipped with counters) }
{
    let g = get(
        first_strips,
        second_strips,
        first_ends,
        second_ends,
        marks,
        k1,
        entries1,
        k2,
        entries2,
    );
    let a = list(ax, ay, an, ah);
    let b = list(bx, by, bn, bh);
    let answer = batch::jobs(
        customer, g, a, b, distance, first, second, job_first, job_second, job_way,
    );
    match answer {
        Ok(ended) => {
            *skipped = ended.sums.skipped;
            put_counters(ended.sums.counters, looks, distances, range_pairs);
            put(
                ended.grid,
                first_strips,
                second_strips,
                first_ends,
                second_ends,
                marks,
                k1,
                entries1,
                k2,
                entries2,
            );
            0
        }
        Err(told) => told.number(),
    }
}

// Status: a customer's jobs settled, the jobs in all, the entries and K.
#[unsafe(no_mangle)]
pub extern "C" fn vumlintel_status(
    first_strips: &u32,
    second_strips: &u32,
    first_ends: &[u32; 32],
    second_ends: &[u32; 32],
    marks: &[u8; 1024],
    k1: &u32,
    entries1: &u32,
    k2: &u32,
    entries2: &u32,
    customer: u32,
    ax: &[i32],
    ay: &[i32],
    an: &[u32],
    ah: &[i32],
    bx: &[i32],
    by: &[i32],
    bn: &[u32],
    bh: &[i32],
    distance: &[u64],
    first: &[u32],
    second: &[u32],
    settled: &mut u32,
    jobs: &mut u32,
    entries: &mut u32,
    k: &mut u32,
) -> u32
    ensures { let g = grid_of first_strips.now second_strips.now first_ends.now second_ends.now marks.now
        k1.now entries1.now k2.now entries2.now in
        let a = (lent_list ax ay an ah).entry in
        let b = (lent_list bx by bn bh).entry in
        let l = results distance.now first.now second.now in
        let places = the status_values of_mut settled of_mut jobs of_mut entries of_mut k in
        Crosses (status_answer customer g a b l) result places }
{
    let g = get(
        first_strips,
        second_strips,
        first_ends,
        second_ends,
        marks,
        k1,
        entries1,
        k2,
        entries2,
    );
    let a = list(ax, ay, an, ah);
    let b = list(bx, by, bn, bh);
    match campaign::calls::status(customer, g, a, b, distance, first, second) {
        Ok(told) => {
            *settled = told.settled;
            *jobs = told.jobs;
            *entries = told.entries;
            *k = told.k;
            0
        }
        Err(fault) => fault.number(),
    }
}
