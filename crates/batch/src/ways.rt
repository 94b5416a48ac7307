// The three ways by their numbers.
ghost use Rattle.std.specs.Prelude.{◌≡◌};
ghost use Rattle.batch.specs.Batch.{lawful_way, way_of};

use join::Join;
use sweep::Way;

// Whether a number is a way's.
#[tactic(auto, unfolding(crate::specs::Batch::lawful_way))]
pub(super) fn is_way(way: u32) -> bool
    ensures { result ≡ lawful_way way }
{
    way <= 2
}

// The way of a number.
#[tactic(auto, unfolding(crate::specs::Batch::way_of))]
pub(super) fn way_of(way: u32) -> Join
    ensures { result ≡ way_of way }
{
    match way {
        1 => Join::Sweep(Way::ReverseRun),
        2 => Join::Halves,
        _ => Join::Sweep(Way::Classic),
    }
}
