// How many pairs of one height each of two columns are equal: each against each where they are short, by a table where not.
#![tactic(auto)]

ghost use Rattle.std.specs.Prelude.{◌≡◌, true, ◌≤◌, length};
ghost use Rattle.order.specs.Lists.{all};
ghost use Rattle.site.specs.Site.{height_within};
ghost use Rattle.heights.specs.Heights.{occurrences, equal_pairs};
ghost use Rattle.heights.specs.Internal.{equal, slot_of, Tallied};

use site::Site;

// 1 where two heights are equal, else 0.
fn equal(a: i32, b: i32) -> u64
    ensures { result ≡ equal a b }
{
    if a == b { 1 } else { 0 }
}

// How often a height stands in a column.
fn occurrences(h: i32, column: &[i32]) -> u64
    requires { length column.now ≤ 65_535 }
    ensures { result ≡ occurrences h column.now }
{
    let mut found: u64 = 0;
    for &height in column {
        found += equal(h, height);
    }
    found
}

// The equal pairs of two columns, each height against each.
fn few_equal(a: &[i32], b: &[i32]) -> u64
    requires { (length a.now ≤ 65_535) × (length b.now ≤ 65_535) }
    ensures { result ≡ equal_pairs a.now b.now }
{
    let mut found: u64 = 0;
    for &height in a {
        found += occurrences(height, b);
    }
    found
}

// The slot of a height in the table.
fn slot(h: i32) -> usize
    requires { height_within h ≡ true }
    ensures { (result ≡ slot_of h) × (result ≤ 20_000) }
{
    site::gap(h, Site::LOWEST) as usize
}

// How often each height stands in a column.
fn tally(column: &[i32]) -> [u16; 20_001]
    requires { (length column.now ≤ 65_535) × (all height_within column.now ≡ true) }
    ensures { Tallied column.now result }
{
    let mut counts = [0u16; 20_001];
    for &height in column {
        counts[slot(height)] += 1;
    }
    counts
}

// The equal pairs of two columns, by a table of the first.
fn many_equal(a: &[i32], b: &[i32]) -> u64
    requires { (length a.now ≤ 65_535) × (length b.now ≤ 65_535)
        × (all height_within a.now ≡ true) × (all height_within b.now ≡ true) }
    ensures { result ≡ equal_pairs a.now b.now }
{
    let counts = tally(a);
    let mut found: u64 = 0;
    for &height in b {
        found += u64::from(counts[slot(height)]);
    }
    found
}

// How many pairs of one height each of two columns are equal. Fewer than 1,024 pairs are compared without a table; where the
// first column has one height alone, none is needed.
pub fn equal_pairs(a: &[i32], b: &[i32]) -> u64
    requires { (length a.now ≤ 65_535) × (length b.now ≤ 65_535)
        × (all height_within a.now ≡ true) × (all height_within b.now ≡ true) }
    ensures { result ≡ equal_pairs a.now b.now }
{
    if a.len() * b.len() < 1_024 {
        return few_equal(a, b);
    }
    let h = a[0];
    let alike = occurrences(h, a);
    if alike == a.len() as u64 {
        return alike * occurrences(h, b);
    }
    many_equal(a, b)
}
