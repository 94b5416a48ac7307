// A site and its limits, the squared distance of two sites, a lawful list: checking one, adding a site to one and removing one.
// A list has heights; the plane, which the site file keeps, has none.
#![tactic(auto)]

mod adding;
mod in_use;
mod lists;
mod positions;
mod refusals;
mod removing;

ghost use Rattle.std.specs.Prelude.{◌≡◌};
ghost use Rattle.site.specs.Site.{between, within, height_within};
ghost use Rattle.site.specs.SiteList.{spots_of};

pub use adding::{add, lawful};
pub use in_use::{is_present, place_of};
pub use lists::{before, check, list_refusal, lists_refusal, plane_refusal};
pub use positions::{at_most, gap, plane_distance, rise, squared_distance, squared_gap};
pub use refusals::Refusal;
pub use removing::remove;

// A position, a number and a height. (01: site; 02 l: height.)
#[derive(Clone, Copy)]
pub struct Site {
    pub x: i32,
    pub y: i32,
    pub number: u32,
    pub height: i32,
}

// A site list as it is lent: a column each for the x, y, numbers and heights of its sites. (01: site list.)
#[derive(Clone, Copy)]
pub struct SiteColumns<'a> {
    pub x: &'a [i32],
    pub y: &'a [i32],
    pub number: &'a [u32],
    pub height: &'a [i32],
}

// Where the sites of a list stand, as it is lent, for what reads no number: a column each for their x, y and heights.
#[derive(Clone, Copy)]
pub struct Spots<'a> {
    pub x: &'a [i32],
    pub y: &'a [i32],
    pub height: &'a [i32],
}

impl<'a> SiteColumns<'a> {
    // Where the sites stand.
    pub fn spots(self) -> Spots<'a>
        ensures { result ≡ spots_of self.entry }
    {
        Spots {
            x: self.x,
            y: self.y,
            height: self.height,
        }
    }
}

// What adding or removing a site answers: its place and the new count in use.
#[derive(Clone, Copy)]
pub struct Changed {
    pub place: u32,
    pub count: u32,
}

// Whether a coordinate is inside two limits, both allowed.
fn between(low: i32, high: i32, c: i32) -> bool
    ensures { result ≡ between low high c }
{
    low <= c && c <= high
}

impl Site {
    // The coordinate limits, both allowed.
    pub const MIN: i32 = -1_000_000_000;

    pub const MAX: i32 = 1_000_000_000;

    // Whether a coordinate is inside the limits.
    pub fn within(c: i32) -> bool
        ensures { result ≡ within c }
    {
        between(Site::MIN, Site::MAX, c)
    }

    // The limits of a height, both allowed.
    pub const LOWEST: i32 = -10_000;

    pub const HIGHEST: i32 = 10_000;

    // Whether a height is inside the limits.
    pub fn height_within(h: i32) -> bool
        ensures { result ≡ height_within h }
    {
        between(Site::LOWEST, Site::HIGHEST, h)
    }
}
