// The two customers of a grid: which numbers are customers', and what each one's own of the grid is.
#![tactic(auto)]

ghost use Rattle.std.specs.Prelude.{◌≡◌, map, ◌≤◌, min};
ghost use Rattle.customers.specs.Customers.{
  is_customer,
  own,
  own_mark,
  with_own,
  cleared,
  settled_at,
  campaign_as,
  with_campaign,
  lowered,
};

// Both customers' campaigns: the cut ends of both lists, a mark from 0 to 3 for each job, and the K and the entry count of
// each customer. (02 e: the grid.)
#[derive(Clone, Copy)]
pub struct Grid {
    pub first_strips: u32,
    pub second_strips: u32,
    pub first_ends: [u32; 32],
    pub second_ends: [u32; 32],
    pub marks: [u8; 1024],
    pub k1: u32,
    pub entries1: u32,
    pub k2: u32,
    pub entries2: u32,
}

// One customer's part of the grid: K, the entry count, the cut ends of both lists and a mark for each job. (01: campaign.)
#[derive(Clone, Copy)]
pub struct Campaign {
    pub k: u32,
    pub entries: u32,
    pub first_strips: u32,
    pub second_strips: u32,
    pub first_ends: [u32; 32],
    pub second_ends: [u32; 32],
    pub marks: [u8; 1024],
}

// Whether a number is a customer's.
#[tactic(auto, unfolding(crate::specs::Customers::is_customer))]
pub fn is_customer(customer: u32) -> bool
    ensures { result ≡ is_customer customer }
{
    customer == 1 || customer == 2
}

// Of the first customer's number and the second's, a customer's own.
fn own(customer: u32, first: u32, second: u32) -> u32
    ensures { result ≡ own customer first second }
{
    if customer == 1 { first } else { second }
}

// A customer's own of a mark.
#[tactic(auto, unfolding(crate::specs::Customers::own_mark))]
fn own_mark(customer: u32, mark: u8) -> u8
    ensures { result ≡ own_mark customer mark }
{
    if customer == 1 { mark % 2 } else { mark / 2 }
}

// A mark with another of the customer's own; the other customer's stays.
#[tactic(auto, unfolding(crate::specs::Customers::with_own))]
fn with_own(customer: u32, mine: u8, mark: u8) -> u8
    requires { mine ≤ 1 }
    ensures { result ≡ with_own customer mine mark }
{
    if customer == 1 {
        2 * (mark / 2) + mine
    } else {
        mark % 2 + 2 * mine
    }
}

// A customer's own of each mark.
fn own_marks(customer: u32, marks: [u8; 1024]) -> [u8; 1024]
    ensures { result ≡ map (own_mark customer) marks }
{
    let mut mine = marks;
    for mark in &mut mine {
        *mark = own_mark(customer, *mark);
    }
    mine
}

// The marks with each of the customer's own at 0.
#[tactic(auto, unfolding(crate::specs::Customers::cleared))]
pub fn cleared(customer: u32, marks: [u8; 1024]) -> [u8; 1024]
    ensures { result ≡ cleared customer marks }
{
    let mut left = marks;
    for mark in &mut left {
        *mark = with_own(customer, 0, *mark);
    }
    left
}

// The marks with the customer's own of mark `place` at 1.
#[tactic(auto, unfolding(crate::specs::Customers::settled_at))]
pub fn settled_at(customer: u32, marks: [u8; 1024], place: usize) -> [u8; 1024]
    ensures { result ≡ settled_at customer marks place }
{
    let mut settled = marks;
    if place < 1024 {
        settled[place] = with_own(customer, 1, marks[place]);
    }
    settled
}

// A customer's campaign: the ends, and their own K, marks and entry count.
#[tactic(auto, unfolding(crate::specs::Customers::campaign_as))]
pub fn campaign_as(customer: u32, g: Grid) -> Campaign
    ensures { result ≡ campaign_as customer g }
{
    // Taken out by name: the check does not cover an array field put straight into another struct's literal.
    let Grid {
        first_ends,
        second_ends,
        ..
    } = g;
    Campaign {
        k: own(customer, g.k1, g.k2),
        entries: own(customer, g.entries1, g.entries2),
        first_strips: g.first_strips,
        second_strips: g.second_strips,
        first_ends,
        second_ends,
        marks: own_marks(customer, g.marks),
    }
}

// The grid with these marks and a customer's own K and entry count.
#[tactic(auto, unfolding(crate::specs::Customers::with_campaign))]
pub fn with_campaign(customer: u32, k: u32, entries: u32, marks: [u8; 1024], g: Grid) -> Grid
    ensures { result ≡ with_campaign customer k entries marks g }
{
    Grid {
        marks,
        k1: own(customer, k, g.k1),
        entries1: own(customer, entries, g.entries1),
        k2: own(customer, g.k2, k),
        entries2: own(customer, g.entries2, entries),
        ..g
    }
}

// The grid with a customer's K lowered, and as many of their entries as it leaves.
#[tactic(auto, unfolding(crate::specs::Customers::lowered))]
pub fn lowered(customer: u32, g: Grid, k: u32) -> Grid
    ensures { result ≡ lowered customer g k }
{
    let c = campaign_as(customer, g);
    with_campaign(customer, k, k.min(c.entries), g.marks, g)
}
