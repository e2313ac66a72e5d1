// The refusals of document 01, each with its number, and what a listing tells.
#![tactic(auto)]

ghost use Rattle.std.specs.Prelude.{◌≡◌};
ghost use Rattle.refusal.specs.Refusal.{number_of};

// Why a call refuses. Refusal is document 01's term. The names are those of the Rust's
// NormalFormError where it has the error; a refusal tells its number alone, so no variant holds a
// value.
#[derive(Clone, Copy, Debug, PartialEq, Eq)]
pub enum NormalFormError {
    NoPlayers = 1,
    TooManyPlayers = 2,
    NoStrategies = 3,
    TooManyStrategies = 4,
    TooManyCells = 5,
    PayoffCount = 6,
    NonFiniteUtility = 7,
    InvalidPlayer = 8,
    OpponentProfileCount = 9,
    InvalidOpponentStrategy = 10,
    ProfileCount = 11,
    InvalidStrategy = 12,
    OutputTooShort = 13,
    NoSurvivingStrategy = 14,
    NotDominated = 15,
    ForeignSurvivors = 16,
    MissingWord = 17,
    WrongKind = 18,
    WrongPayload = 19,
    TrailingWord = 20,
}

impl NormalFormError {
    // The refusal's number in document 01's refusal table.
    pub fn number(self) -> u32
        ensures { result ≡ number_of self }
    {
        self as u32
    }
}

// What a listing tells: how many entries there are in all, and how many of them, from the first on,
// are written.
#[derive(Clone, Copy)]
pub struct Listed {
    pub total: usize,
    pub written: usize,
}
