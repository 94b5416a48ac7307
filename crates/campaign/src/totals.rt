// The settled jobs' pair total.
ghost use Rattle.std.specs.Prelude.{◌≡◌, true, map, ◌<◌, length};
ghost use Rattle.order.specs.Lists.{keep};
ghost use Rattle.sweep.specs.Terms.{NumberedLists};
ghost use Rattle.campaign.specs.Grid.{job_of, count_from, settled, settled_jobs, job_pairs, jobs_pairs};
ghost use Rattle.campaign.specs.Soundness.{first_ends, second_ends};
ghost use Rattle.campaign.specs.Terms.{BothLists, sound_plan, JobAsked};

use super::{ends, marks};
use customers::Campaign;
use site::Spots;

// How many pairs a job has.
fn job(c: Campaign, a: Spots<'_>, b: Spots<'_>, s: u32, t: u32) -> u64
    requires both_lists { BothLists a b }
    requires job_asked { JobAsked c (length a.x.now) (length b.x.now) (job_of s t) }
    ensures { NumberedLists a.entry b.entry (λ p q.
        result ≡ length (job_pairs (first_ends c) (second_ends c) p q (job_of s t))) }
{
    let p = ends::strip(c.first_ends, c.first_strips, s);
    let q = ends::strip(c.second_ends, c.second_strips, t);
    sweep::count_pairs(a, b, p.from, p.to, q.from, q.to)
}

// How many pairs the settled jobs of a strip of the first list have.
fn row(c: Campaign, a: Spots<'_>, b: Spots<'_>, s: u32) -> u64
    requires both_lists { BothLists a b }
    requires plan { (sound_plan c (length a.x.now) (length b.x.now) ≡ true) × (s < c.first_strips) }
    ensures { let row = keep (settled c.marks) (map (job_of s) (count_from 0 c.second_strips)) in
        NumberedLists a.entry b.entry (λ p q. result ≡ length (jobs_pairs (first_ends c) (second_ends c) p q row)) }
{
    let mut pairs = 0;
    for t in 0..c.second_strips {
        if marks::is_settled(&c.marks, s as usize, t as usize) {
            pairs += job(c, a, b, s, t);
        }
    }
    pairs
}

// How many pairs the settled jobs have.
pub(super) fn settled_pairs(c: Campaign, a: Spots<'_>, b: Spots<'_>) -> u64
    requires both_lists { BothLists a b }
    requires plan { sound_plan c (length a.x.now) (length b.x.now) ≡ true }
    ensures { NumberedLists a.entry b.entry (λ p q.
        result ≡ length (jobs_pairs (first_ends c) (second_ends c) p q (settled_jobs c))) }
{
    let mut pairs = 0;
    for s in 0..c.first_strips {
        pairs += row(c, a, b, s);
    }
    pairs
}
