// Coordinates: their order and their difference, and the squared distance of two positions.
ghost use Rattle.std.specs.Prelude.{◌≡◌, true, cond, ◌-ℤ◌};
ghost use Rattle.std.specs.Int.Signed.{le_z, lt_z};
ghost use Rattle.site.specs.Site.{within, height_within, gap, square, squared_distance};
ghost use Rattle.site.specs.SiteList.{site, raised_site};

// Whether one coordinate is at most another.
pub fn at_most(a: i32, b: i32) -> bool
    ensures { result ≡ le_z a b }
{
    a <= b
}

// The difference of two coordinates.
#[tactic(auto, unfolding(crate::specs::Site::gap))]
pub fn gap(a: i32, b: i32) -> u64
    ensures { result ≡ gap a b }
{
    (a as i64 - b as i64).unsigned_abs()
}

// How far `b` is above `a`, 0 where it is not.
#[tactic(auto, unfolding(crate::specs::Site::gap))]
pub fn rise(a: i32, b: i32) -> u64
    ensures { result ≡ cond (lt_z a b) (gap a b) 0 }
{
    (b as i64 - a as i64).max(0) as u64
}

// The square of the difference of two coordinates.
pub fn squared_gap(a: i32, b: i32) -> u64
    ensures { result ≡ square (gap a b) }
{
    let g = gap(a, b);
    g * g
}

// The squared distance of two positions of the plane inside the limits.
pub fn plane_distance(ax: i32, ay: i32, bx: i32, by: i32) -> u64
    requires { (within ax ≡ true) × (within ay ≡ true) × (within bx ≡ true) × (within by ≡ true) }
    ensures { result ≡ squared_distance (site ax ay 0) (site bx by 0) }
{
    squared_gap(ax, bx) + squared_gap(ay, by)
}

// The squared distance of two positions inside the limits.
pub fn squared_distance(ax: i32, ay: i32, ah: i32, bx: i32, by: i32, bh: i32) -> u64
    requires ax_value { (within ax ≡ true) × (within ay ≡ true) × (height_within ah ≡ true) }
    requires bx_value { (within bx ≡ true) × (within by ≡ true) × (height_within bh ≡ true) }
    ensures { result ≡ squared_distance (raised_site ax ay 0 ah) (raised_site bx by 0 bh) }
{
    plane_distance(ax, ay, bx, by) + squared_gap(ah, bh)
}
