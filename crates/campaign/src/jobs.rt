// One job: its refusal, whether it is skipped, its join, its mark.
ghost use Rattle.std.specs.Prelude.{◌≡◌, true, List, ℕ, ◌≤◌, ◌<◌, length};
ghost use Rattle.site.specs.SiteList.{list_of};
ghost use Rattle.site.specs.Answer.{refusal_of};
ghost use Rattle.sweep.specs.Terms.{NumberedLists};
ghost use Rattle.entry.specs.Terms.{Ready};
ghost use Rattle.entry.specs.Results.{results, lent_results, entries_of, room_for};
ghost use Rattle.join.specs.Join.{join};
ghost use Rattle.join.specs.Terms.{JoinedTo};
ghost use Rattle.customers.specs.Customers.{campaign_as};
ghost use Rattle.campaign.specs.Grid.{strip_at, job_of, all_settled};
ghost use Rattle.campaign.specs.Soundness.{first_ends, second_ends};
ghost use Rattle.campaign.specs.Terms.{BothLists, JobAsked, ReadyFor};
ghost use Rattle.campaign.specs.Internal.{job_done};
ghost use Rattle.campaign.specs.Calls.{job_fault, job_refusal, skips, after_job, accepted_job, job_done_values};

use super::{JobDone, Outcome, ends, marks, soundness};
use customers::{Campaign, Grid};
use join::{Join, Joined};
use site::{Refusal, SiteColumns, Spots};

// Whether a job's strip numbers or its mark are refused: for 8, then 9.
#[tactic(auto, unfolding(site::specs::Answer::refusal_of, site::specs::Answer::number, site::specs::Answer::or_else, crate::specs::Calls::job_fault))]
pub fn fault(rows: u32, cols: u32, marks: &[u8], s: u32, t: u32) -> Result<(), Refusal>
    requires { (rows ≤ 32) × (cols ≤ 32) }
    ensures { refusal_of result ≡ job_fault rows cols marks.now (job_of s t) }
{
    if rows <= s || cols <= t {
        return Err(Refusal::Place);
    }
    if marks::is_settled(marks, s as usize, t as usize) {
        Err(Refusal::Settled)
    } else {
        Ok(())
    }
}

// Whether each job of a campaign is settled.
pub fn all_settled(c: Campaign) -> bool
    requires { (c.first_strips ≤ 32) × (c.second_strips ≤ 32) }
    ensures { result ≡ all_settled c }
{
    marks::settled_jobs(&c.marks, c.first_strips as usize, c.second_strips as usize)
        == c.first_strips * c.second_strips
}

// Whether a job is refused: for 15, 1, 2, 3, 7, 8 or 9.
#[tactic(auto, unfolding(site::specs::Answer::refusal_of, site::specs::Answer::number, site::specs::Answer::or_else, crate::specs::Calls::job_refusal))]
pub(super) fn refusal(
    customer: u32,
    g: Grid,
    a: SiteColumns<'_>,
    b: SiteColumns<'_>,
    distance: &[u64],
    first: &[u32],
    second: &[u32],
    s: u32,
    t: u32,
) -> Result<(), Refusal>
    ensures { let l = results distance.now first.now second.now in
        refusal_of result ≡ job_refusal customer g (list_of a.entry) (list_of b.entry) l (job_of s t) }
{
    soundness::refusal(customer, g, a, b, distance, first, second)?;
    let c = customers::campaign_as(customer, g);
    fault(g.first_strips, g.second_strips, &c.marks, s, t)
}

// Whether a job is skipped: the list has K entries and the gap squared is greater than the last squared distance.
pub(super) fn skips(
    c: Campaign,
    a: Spots<'_>,
    b: Spots<'_>,
    distance: &[u64],
    s: u32,
    t: u32,
) -> bool
    requires both_lists { BothLists a b }
    requires job_asked { JobAsked c (length a.x.now) (length b.x.now) (job_of s t) }
    requires entries_le_k { (c.entries ≤ c.k) × (c.k ≤ length distance.now) }
    ensures { let held = results distance.now in
        NumberedLists a.entry b.entry (λ p q. (first second : List ℕ)
        → room_for c.k (held first second) ≡ true
        → result ≡ skips c p q (entries_of c.entries (held first second)) (job_of s t)) }
{
    if c.entries != c.k {
        return false;
    }
    let one = ends::strip(c.first_ends, c.first_strips, s);
    let other = ends::strip(c.second_ends, c.second_strips, t);
    let last = c.entries as usize - 1;
    halves::gap_beyond(a, b, one.from, one.to, other.from, other.to, distance[last])
}

// Joins the strips of a job that is not skipped, by the way named.
pub(super) fn swept(
    c: Campaign,
    a: Spots<'_>,
    b: Spots<'_>,
    distance: &mut [u64],
    first: &mut [u32],
    second: &mut [u32],
    s: u32,
    t: u32,
    way: Join,
) -> Joined
    requires both_lists { BothLists a b }
    requires job_asked { JobAsked c (length a.x.now) (length b.x.now) (job_of s t) }
    requires ready { Ready c.k c.entries (results distance.old first.old second.old) }
    ensures { let l = lent_results distance first second in
        let old = entries_of c.entries l.entry in
        NumberedLists a.entry b.entry (λ p q.
        JoinedTo (join way c.k (strip_at (first_ends c) p s) (strip_at (second_ends c) q t) old)
        l.entry l.exit result) }
{
    let p = ends::strip(c.first_ends, c.first_strips, s);
    let q = ends::strip(c.second_ends, c.second_strips, t);
    join::run(
        way,
        a,
        b,
        p.from,
        p.to,
        q.from,
        q.to,
        c.k as usize,
        c.entries as usize,
        distance,
        first,
        second,
    )
}

// The grid with a customer's job settled, and `count` entries of theirs.
#[tactic(auto, unfolding(crate::specs::Calls::after_job))]
pub(super) fn settle(customer: u32, g: Grid, s: u32, t: u32, count: u32) -> Grid
    requires { (s < 32) × (t < 32) }
    ensures { result ≡ after_job customer g count (job_of s t) }
{
    let c = customers::campaign_as(customer, g);
    let after = marks::settle(customer, g.marks, s as usize, t as usize);
    customers::with_campaign(customer, c.k, count, after, g)
}

// A job that is skipped: settled, with as many entries.
pub(super) fn skipped(customer: u32, g: Grid, s: u32, t: u32) -> JobDone
    requires { (s < 32) × (t < 32) }
    ensures { result ≡ job_done (after_job customer g (campaign_as customer g).entries (job_of s t)) Outcome.Skipped }
{
    let c = customers::campaign_as(customer, g);
    JobDone {
        grid: settle(customer, g, s, t, c.entries),
        outcome: Outcome::Skipped,
    }
}

// A job that was swept: settled, with the entries and the counters of the join.
pub(super) fn done(customer: u32, g: Grid, s: u32, t: u32, joined: Joined) -> JobDone
    requires { (s < 32) × (t < 32) }
    ensures { result ≡ job_done (after_job customer g joined.entries (job_of s t)) (Outcome.Swept joined.counters) }
{
    JobDone {
        grid: settle(customer, g, s, t, joined.entries),
        outcome: Outcome::Swept(joined.counters),
    }
}

// Does a job that is not refused, swept or skipped.
pub fn work(
    customer: u32,
    g: Grid,
    a: Spots<'_>,
    b: Spots<'_>,
    distance: &mut [u64],
    first: &mut [u32],
    second: &mut [u32],
    s: u32,
    t: u32,
    way: Join,
) -> JobDone
    requires both_lists { BothLists a b }
    requires job_asked { JobAsked (campaign_as customer g) (length a.x.now) (length b.x.now) (job_of s t) }
    requires ready_for { ReadyFor (campaign_as customer g) (results distance.old first.old second.old) }
    ensures { let l = lent_results distance first second in
        NumberedLists a.entry b.entry (λ p q.
        job_done_values l.exit result ≡ accepted_job way customer g p q l.entry (job_of s t)) }
{
    let c = customers::campaign_as(customer, g);
    if skips(c, a, b, distance, s, t) {
        return skipped(customer, g, s, t);
    }
    let joined = swept(c, a, b, distance, first, second, s, t, way);
    done(customer, g, s, t, joined)
}
