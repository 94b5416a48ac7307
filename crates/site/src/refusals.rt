// Refusals: what a call is refused for.
ghost use Rattle.std.specs.Prelude.{◌≡◌};
ghost use Rattle.site.specs.Answer.{number};

// What a call is refused for, in the order of the numbers 1 to 16. (01: refusal.)
#[derive(Clone, Copy, Debug, PartialEq, Eq)]
pub enum Refusal {
    Columns,
    Limits,
    Order,
    K,
    Ends,
    Room,
    Unsound,
    Place,
    Settled,
    File,
    Present,
    Gap,
    Overlap,
    Price,
    Customer,
    Absent,
}

impl Refusal {
    // The refusal's number.
    #[tactic(auto, unfolding(crate::specs::Answer::number))]
    pub fn number(self) -> u32
        ensures { result ≡ number self }
    {
        match self {
            Refusal::Columns => 1,
            Refusal::Limits => 2,
            Refusal::Order => 3,
            Refusal::K => 4,
            Refusal::Ends => 5,
            Refusal::Room => 6,
            Refusal::Unsound => 7,
            Refusal::Place => 8,
            Refusal::Settled => 9,
            Refusal::File => 10,
            Refusal::Present => 11,
            Refusal::Gap => 12,
            Refusal::Overlap => 13,
            Refusal::Price => 14,
            Refusal::Customer => 15,
            Refusal::Absent => 16,
        }
    }
}
