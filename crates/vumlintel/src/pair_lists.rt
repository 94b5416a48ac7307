// The K list, the distance list and the forecast of two lists.
ghost use Rattle.column.specs.Lent.{the, ◌with◌, ◌of_mut◌};
ghost use Rattle.site.specs.SiteList.{lent_list};
ghost use Rattle.entry.specs.Results.{lent_results};
ghost use Rattle.sweep.specs.declared.Way.TheVariants.{Classic, ReverseRun};
ghost use Rattle.join.specs.declared.Join.TheVariants.{Sweep, Halves};
ghost use Rattle.join.specs.Join.{counts, by_sweep, by_halves};
ghost use Rattle.pairs.specs.KList.{k_list_values, k_list_answer};
ghost use Rattle.pairs.specs.DistanceList.{distance_values, distance_answer};
ghost use Rattle.pairs.specs.Forecast.{forecast_values, forecast_answer};
ghost use Rattle.vumlintel.specs.Crosses.{Crosses};

use super::crossing::{cross, put_counters};
use super::lists::list;
use join::Join;
use sweep::Way;

// The K list by any of the three ways: the entry count and the counters.
fn k_list(
    way: Join,
    ax: &[i32],
    ay: &[i32],
    an: &[u32],
    ah: &[i32],
    bx: &[i32],
    by: &[i32],
    bn: &[u32],
    bh: &[i32],
    k: u32,
    distance: &mut [u64],
    first: &mut [u32],
    second: &mut [u32],
    entries: &mut u32,
    looks: &mut u64,
    distances: &mut u64,
    range_pairs: &mut u64,
) -> u32
    ensures { let a = (lent_list ax ay an ah).entry in
        let b = (lent_list bx by bn bh).entry in
        let l = lent_results distance first second in
        let counters = the counts of_mut looks of_mut distances of_mut range_pairs in
        let places = the k_list_values with l of_mut entries with counters in
        Crosses (k_list_answer way a b k l.entry) result places }
{
    let a = list(ax, ay, an, ah);
    let b = list(bx, by, bn, bh);
    match pairs::k_list(way, a, b, k, distance, first, second) {
        Ok(told) => {
            *entries = told.count;
            put_counters(told.counters, looks, distances, range_pairs);
            0
        }
        Err(refusal) => refusal.number(),
    }
}

// The K list by the classic sweep: the entry count, the looks and the distances.
#[unsafe(no_mangle)]
pub extern "C" fn vumlintel_k_list_classic(
    ax: &[i32],
    ay: &[i32],
    an: &[u32],
    ah: &[i32],
    bx: &[i32],
    by: &[i32],
    bn: &[u32],
    bh: &[i32],
    k: u32,
    distance: &mut [u64],
    first: &mut [u32],
    second: &mut [u32],
    entries: &mut u32,
    looks: &mut u64,
    distances: &mut u64,
) -> u32
    ensures { let a = (lent_list ax ay an ah).entry in
        let b = (lent_list bx by bn bh).entry in
        let l = lent_results distance first second in
        let counters = the by_sweep of_mut looks of_mut distances in
        let places = the k_list_values with l of_mut entries with counters in
        Crosses (k_list_answer (Sweep Classic) a b k l.entry) result places }
{
    let mut range_pairs: u64 = 0;
    k_list(
        Join::Sweep(Way::Classic),
        ax,
        ay,
        an,
        ah,
        bx,
        by,
        bn,
        bh,
        k,
        distance,
        first,
        second,
        entries,
        looks,
        distances,
        &mut range_pairs,
    )
}

// The K list by Reverse Run: the entry count, the looks and the distances.
#[unsafe(no_mangle)]
pub extern "C" fn vumlintel_k_list_reverse_run(
    ax: &[i32],
    ay: &[i32],
    an: &[u32],
    ah: &[i32],
    bx: &[i32],
    by: &[i32],
    bn: &[u32],
    bh: &[i32],
    k: u32,
    distance: &mut [u64],
    first: &mut [u32],
    second: &mut [u32],
    entries: &mut u32,
    looks: &mut u64,
    distances: &mut u64,
) -> u32
    ensures { let a = (lent_list ax ay an ah).entry in
        let b = (lent_list bx by bn bh).entry in
        let l = lent_results distance first second in
        let counters = the by_sweep of_mut looks of_mut distances in
        let places = the k_list_values with l of_mut entries with counters in
        Crosses (k_list_answer (Sweep ReverseRun) a b k l.entry) result places }
{
    let mut range_pairs: u64 = 0;
    k_list(
        Join::Sweep(Way::ReverseRun),
        ax,
        ay,
        an,
        ah,
        bx,
        by,
        bn,
        bh,
        k,
        distance,
        first,
        second,
        entries,
        looks,
        distances,
        &mut range_pairs,
    )
}

// The K list by halves: the entry count and the range pairs.
#[unsafe(no_mangle)]
pub extern "C" fn vumlintel_k_list_halves(
    ax: &[i32],
    ay: &[i32],
    an: &[u32],
    ah: &[i32],
    bx: &[i32],
    by: &[i32],
    bn: &[u32],
    bh: &[i32],
    k: u32,
    distance: &mut [u64],
    first: &mut [u32],
    second: &mut [u32],
    entries: &mut u32,
    range_pairs: &mut u64,
) -> u32
    ensures { let a = (lent_list ax ay an ah).entry in
        let b = (lent_list bx by bn bh).entry in
        let l = lent_results distance first second in
        let counters = the by_halves of_mut range_pairs in
        let places = the k_list_values with l of_mut entries with counters in
        Crosses (k_list_answer Halves a b k l.entry) result places }
{
    let mut looks: u64 = 0;
    let mut distances: u64 = 0;
    k_list(
        Join::Halves,
        ax,
        ay,
        an,
        ah,
        bx,
        by,
        bn,
        bh,
        k,
        distance,
        first,
        second,
        entries,
        &mut looks,
        &mut distances,
        range_pairs,
    )
}

// The distance list: its count.
#[unsafe(no_mangle)]
pub extern "C" fn vumlintel_distance_list(
    ax: &[i32],
    ay: &[i32],
    an: &[u32],
    ah: &[i32],
    bx: &[i32],
    by: &[i32],
    bn: &[u32],
    bh: &[i32],
    e: u32,
    first: &mut [u32],
    second: &mut [u32],
    count: &mut u64,
) -> u32
    ensures { let a = (lent_list ax ay an ah).entry in
        let b = (lent_list bx by bn bh).entry in
        let places = the distance_values of_mut first of_mut second of_mut count in
        Crosses (distance_answer a b e first.old second.old) result places }
{
    let a = list(ax, ay, an, ah);
    let b = list(bx, by, bn, bh);
    let answer = pairs::distance_list(a, b, e, first, second);
    cross(answer, count)
}

// The forecast of a distance list's size: the number of pairs no further apart than `e` in x, and each place's own.
#[unsafe(no_mangle)]
pub extern "C" fn vumlintel_forecast(
    ax: &[i32],
    ay: &[i32],
    an: &[u32],
    ah: &[i32],
    bx: &[i32],
    by: &[i32],
    bn: &[u32],
    bh: &[i32],
    e: u32,
    partners: &mut [u32],
    total: &mut u64,
) -> u32
    ensures { let a = (lent_list ax ay an ah).entry in
        let b = (lent_list bx by bn bh).entry in
        Crosses (forecast_answer a b e partners.old) result (the forecast_values of_mut partners of_mut total) }
{
    let a = list(ax, ay, an, ah);
    let b = list(bx, by, bn, bh);
    let answer = pairs::forecast(a, b, e, partners);
    cross(answer, total)
}
