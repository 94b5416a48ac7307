// A list under way: at most `k` entries in the result columns, in a form that takes one more in few steps.
ghost use Rattle.std.specs.Prelude.{◌≡◌, cond, [], ◌∷◌, ◌++◌, ◌-◌, ◌^◌, ◌<◌, eqb, get_or, set};
ghost use Rattle.entry.specs.Results.{results, lent_results, entries_of, holding};
ghost use Rattle.entry.specs.Terms.{queued, started, Queueing, FinishAsked, Offered};
ghost use Rattle.entry.specs.Internal.{HeapAt, PushAsked, QueueOf};

use super::{Entry, Queue, before, entry_inside, heap};

// The last place of `count`, 0 where there is none.
fn end(count: usize) -> usize
    ensures { result ≡ count - 1 }
{
    count.saturating_sub(1)
}

// The greatest squared distance at which a pair can still enter a list of at most `k`.
fn reach(distance: &[u64], count: usize, k: usize) -> u64
    ensures { result ≡ cond (eqb count k) (get_or distance.now (count - 1) 0) (2 ^ 64 - 1) }
{
    if count != k {
        return u64::MAX;
    }
    column::get(distance, end(count), 0)
}

// The queue of entries that stand in rank order.
pub fn start(distance: &[u64], count: usize, k: usize) -> Queue
    ensures { result ≡ started distance.now count k }
{
    Queue {
        count,
        last: end(count),
        reach: reach(distance, count, k),
    }
}

// An entry in place of the top of a heap of `k`.
fn replace(distance: &mut [u64], first: &mut [u32], second: &mut [u32], k: usize, e: Entry) -> Queue
    requires { (0 < k) × HeapAt k (results distance.old first.old second.old) }
    ensures { let l = lent_results distance first second in
        QueueOf k (set (entries_of k l.entry) 0 e) l.entry l.exit result }
{
    heap::sift(distance, first, second, k, 0, e);
    Queue {
        count: k,
        last: 0,
        reach: column::get(distance, 0, 0),
    }
}

// An entry behind the others, of which there are fewer than `k`; with the last that there is room for they become a
// heap.
fn push(
    distance: &mut [u64],
    first: &mut [u32],
    second: &mut [u32],
    k: usize,
    count: usize,
    e: Entry,
) -> Queue
    requires { PushAsked k count (results distance.old first.old second.old) }
    ensures { let l = lent_results distance first second in
        QueueOf k (entries_of count l.entry ++ (e ∷ [])) l.entry l.exit result }
{
    heap::put(distance, first, second, count, e);
    if count + 1 < k {
        return Queue {
            count: count + 1,
            last: 0,
            reach: u64::MAX,
        };
    }
    heap::build(distance, first, second, k);
    Queue {
        count: k,
        last: 0,
        reach: column::get(distance, 0, 0),
    }
}

// A pair takes its place by rank, the entry past `k` dropping out.
pub fn offer(
    distance: &mut [u64],
    first: &mut [u32],
    second: &mut [u32],
    k: usize,
    old: Queue,
    e: Entry,
) -> Queue
    requires { Queueing k old (results distance.old first.old second.old) }
    ensures { let l = lent_results distance first second in
        Offered k e old l.entry l.exit result }
{
    if old.count < k {
        return push(distance, first, second, k, old.count, e);
    }
    if !before(e, entry_inside(distance, first, second, old.last)) {
        return old;
    }
    if old.last == 0 {
        return replace(distance, first, second, k, e);
    }
    heap::build(distance, first, second, k);
    replace(distance, first, second, k, e)
}

// Puts the entries in rank order; while the last stands at the end they stand so already.
pub fn finish(distance: &mut [u64], first: &mut [u32], second: &mut [u32], queue: Queue)
    requires { FinishAsked queue (results distance.old first.old second.old) }
    ensures { let l = lent_results distance first second in l.exit ≡ holding (queued queue l.entry) l.entry }
{
    if queue.last == 0 {
        heap::order(distance, first, second, queue.count);
    }
}
