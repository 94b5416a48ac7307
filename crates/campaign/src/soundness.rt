// What campaign calls refuse: a customer's number, the lists, and with 7 a fault of the grid, of the customer's campaign on it
// or of the columns that hold its entries.
ghost use Rattle.std.specs.Prelude.{◌≡◌, true, ◌≤◌, ◌<◌, length};
ghost use Rattle.order.specs.Order.{ascending};
ghost use Rattle.order.specs.Lists.{all};
ghost use Rattle.site.specs.Site.{squared_distance};
ghost use Rattle.site.specs.SiteList.{site_at, list_of};
ghost use Rattle.site.specs.Answer.{refusal_of};
ghost use Rattle.sweep.specs.Terms.{NumberedLists};
ghost use Rattle.entry.specs.Entry.{rank_before};
ghost use Rattle.entry.specs.Results.{results, entries_of, room_for};
ghost use Rattle.campaign.specs.Terms.{BothLists, sound_plan};
ghost use Rattle.campaign.specs.Internal.{Room, sound_entries};
ghost use Rattle.campaign.specs.Soundness.{sound_entry, sound, lawful_grid, caller_refusal, keeper_refusal, campaign_refusal};

use super::{ends, marks, totals};
use customers::{Campaign, Grid};
use entry::Entry;
use site::{Refusal, SiteColumns, Spots};

// The squared distance of the sites at two places.
fn distance_at(a: Spots<'_>, b: Spots<'_>, i: usize, j: usize) -> u64
    requires both_lists { BothLists a b }
    requires i_in_bounds { (i < length a.x.now) × (j < length b.x.now) }
    ensures { NumberedLists a.entry b.entry (λ p q. result ≡ squared_distance (site_at p i) (site_at q j)) }
{
    site::squared_distance(a.x[i], a.y[i], a.height[i], b.x[j], b.y[j], b.height[j])
}

// Whether the entries stand in rank order.
fn in_order(distance: &[u64], first: &[u32], second: &[u32], count: usize) -> bool
    requires { room_for count (results distance.now first.now second.now) ≡ true }
    ensures { let l = results distance.now first.now second.now in
        result ≡ ascending rank_before (entries_of count l) }
{
    for i in 1..count {
        if !entry::before(
            entry::entry_at(distance, first, second, i - 1),
            entry::entry_at(distance, first, second, i),
        ) {
            return false;
        }
    }
    true
}

// Whether an entry has no fault.
fn sound_entry(
    e: Entry,
    a: Spots<'_>,
    b: Spots<'_>,
    first_ends: &[u32],
    second_ends: &[u32],
    marks: &[u8],
) -> bool
    requires both_lists { BothLists a b }
    requires first_ends_len_bound { (length first_ends.now ≤ 32) × (length second_ends.now ≤ 32) }
    ensures { let faultless = sound_entry marks.now first_ends.now second_ends.now in
        NumberedLists a.entry b.entry (λ p q. result ≡ faultless p q e) }
{
    let i = e.first as usize;
    let j = e.second as usize;
    i < a.x.len()
        && j < b.x.len()
        && e.distance != 0
        && e.distance == distance_at(a, b, i, j)
        && marks::is_settled(
            marks,
            ends::holding(first_ends, e.first),
            ends::holding(second_ends, e.second),
        )
}

// Whether each entry has no fault.
fn all_sound(
    distance: &[u64],
    first: &[u32],
    second: &[u32],
    count: usize,
    a: Spots<'_>,
    b: Spots<'_>,
    first_ends: &[u32],
    second_ends: &[u32],
    marks: &[u8],
) -> bool
    requires second_value { room_for count (results distance.now first.now second.now) ≡ true }
    requires both_lists { BothLists a b }
    requires first_ends_len_bound { (length first_ends.now ≤ 32) × (length second_ends.now ≤ 32) }
    ensures { let l = results distance.now first.now second.now in
        let faultless = sound_entry marks.now first_ends.now second_ends.now in
        NumberedLists a.entry b.entry (λ p q. result ≡ all (faultless p q) (entries_of count l)) }
{
    for i in 0..count {
        let e = entry::entry_at(distance, first, second, i);
        if !sound_entry(e, a, b, first_ends, second_ends, marks) {
            return false;
        }
    }
    true
}

// Whether K and the ends of a campaign have no fault, for lists of `n` and `m` sites.
#[tactic(auto, unfolding(crate::specs::Terms::sound_plan))]
fn sound_plan(c: Campaign, n: usize, m: usize) -> bool
    ensures { result ≡ sound_plan c n m }
{
    entry::lawful_k(c.k)
        && ends::lawful_slots(n, c.first_ends, c.first_strips)
        && ends::lawful_slots(m, c.second_ends, c.second_strips)
}

// Whether the entries stand in order and have no fault.
fn sound_entries(
    c: Campaign,
    a: Spots<'_>,
    b: Spots<'_>,
    distance: &[u64],
    first: &[u32],
    second: &[u32],
) -> bool
    requires both_lists { BothLists a b }
    requires first_strips_bound { (c.first_strips ≤ 32) × (c.second_strips ≤ 32) }
    requires room { Room c.k c.entries (results distance.now first.now second.now) }
    ensures { let l = results distance.now first.now second.now in
        NumberedLists a.entry b.entry (λ p q. result ≡ sound_entries c p q l) }
{
    let count = c.entries as usize;
    let distances = &distance[..count];
    let firsts = &first[..count];
    let seconds = &second[..count];
    in_order(distances, firsts, seconds, count)
        && all_sound(
            distances,
            firsts,
            seconds,
            count,
            a,
            b,
            &c.first_ends[..c.first_strips as usize],
            &c.second_ends[..c.second_strips as usize],
            &c.marks,
        )
}

// Whether a campaign and the result columns have no fault, for lists that were accepted. K entries with no fault are K
// pairs of settled jobs: where they are held, no pair is counted.
fn sound(
    c: Campaign,
    a: Spots<'_>,
    b: Spots<'_>,
    distance: &[u64],
    first: &[u32],
    second: &[u32],
) -> bool
    requires { BothLists a b }
    ensures { let l = results distance.now first.now second.now in
        NumberedLists a.entry b.entry (λ p q. result ≡ sound c p q l) }
{
    sound_plan(c, a.x.len(), b.x.len())
        && entry::room(c.k as usize, distance, first, second)
        && c.entries <= c.k
        && sound_entries(c, a, b, distance, first, second)
        && (c.entries == c.k || c.entries as u64 == totals::settled_pairs(c, a, b))
}

// Whether the marks of a grid have no fault.
#[tactic(auto, unfolding(crate::specs::Soundness::lawful_grid))]
pub(super) fn lawful_grid(g: Grid) -> bool
    ensures { result ≡ lawful_grid g }
{
    marks::lawful(g.first_strips as usize, g.second_strips as usize, &g.marks)
}

// Whether a customer's number or the lists are refused: for 15, then 1, 2 or 3.
#[tactic(auto, unfolding(site::specs::Answer::refusal_of, site::specs::Answer::number, site::specs::Answer::or_else, crate::specs::Soundness::caller_refusal, crate::specs::Soundness::customer_refusal))]
pub fn caller_refusal(customer: u32, a: SiteColumns<'_>, b: SiteColumns<'_>) -> Result<(), Refusal>
    ensures { refusal_of result ≡ caller_refusal customer (list_of a.entry) (list_of b.entry) }
{
    if !customers::is_customer(customer) {
        return Err(Refusal::Customer);
    }
    site::lists_refusal(a, b)
}

// Whether a customer's campaign and its columns are refused, for lists that were accepted: for 7.
#[tactic(auto, unfolding(site::specs::Answer::refusal_of, site::specs::Answer::number, site::specs::Answer::or_else, crate::specs::Soundness::keeper_refusal))]
pub fn keeper_refusal(
    customer: u32,
    g: Grid,
    a: Spots<'_>,
    b: Spots<'_>,
    distance: &[u64],
    first: &[u32],
    second: &[u32],
) -> Result<(), Refusal>
    requires { BothLists a b }
    ensures { let l = results distance.now first.now second.now in
        NumberedLists a.entry b.entry (λ p q. refusal_of result ≡ keeper_refusal customer g p q l) }
{
    if lawful_grid(g)
        && sound(
            customers::campaign_as(customer, g),
            a,
            b,
            distance,
            first,
            second,
        )
    {
        Ok(())
    } else {
        Err(Refusal::Unsound)
    }
}

// Whether a customer's number, the lists, the campaign or its columns are refused: for 15, 1, 2, 3 or 7.
#[tactic(auto, unfolding(site::specs::Answer::refusal_of, site::specs::Answer::number, site::specs::Answer::or_else, crate::specs::Soundness::campaign_refusal))]
pub fn refusal(
    customer: u32,
    g: Grid,
    a: SiteColumns<'_>,
    b: SiteColumns<'_>,
    distance: &[u64],
    first: &[u32],
    second: &[u32],
) -> Result<(), Refusal>
    ensures { let l = results distance.now first.now second.now in
        refusal_of result ≡ campaign_refusal customer g (list_of a.entry) (list_of b.entry) l }
{
    caller_refusal(customer, a, b)?;
    let p = a.spots();
    let q = b.spots();
    keeper_refusal(customer, g, p, q, distance, first, second)
}
