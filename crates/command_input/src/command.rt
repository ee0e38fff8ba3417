//! What the program is asked for, and how it ends.
ghost use Rattle.std.specs.Prelude.{◌≡◌};
ghost use Rattle.command_input.specs.Status.{status_number};

/// What `all` is asked for.
#[derive(Clone, Copy, Debug, PartialEq, Eq)]
pub struct PageRequest<'a> {
    /// How many layouts.
    pub most: u64,
    /// Among how many members of the walk.
    pub budget: u64,
    /// The token of the tuple behind which they stand, where one is given.
    pub token: Option<&'a str>,
}

/// What the words ask for.
#[derive(Clone, Copy, Debug, PartialEq, Eq)]
pub enum Command<'a> {
    /// The first layout, within this number of members.
    First(u64),
    /// The problem in its canonical spelling.
    Show,
    /// Whether a layout satisfies every rule of a problem.
    Judge,
    /// Whether a derivation shows that a problem has no layout.
    Check,
    /// The cells of a layout, as rows of signs.
    Draw,
    /// The layouts, by pages.
    All(PageRequest<'a>),
    /// What the search for the first layout, within this number of members, finds of the problem that is made from a seed.
    Make(u32, u64),
    /// The layout that ends first in this dimension, counted from 1, each round of the search within
    /// this number of members.
    Best(u8, u64),
    /// Whether a derivation shows that no layout ends below this number in this dimension, counted
    /// from 1.
    CheckBest(u8, i64),
    /// In which sequence the objects of a layout go in along this dimension, counted from 1.
    Load(u8),
    /// Which rules refuse together, each round of the search within this number of members.
    Why(u64),
    /// The problem as JSON.
    ToJson,
    /// The problem that a JSON text spells, in its canonical spelling.
    FromJson,
    /// The first layout of the problem that a JSON text spells, as JSON, within this number of
    /// members.
    FirstJson(u64),
}

/// The words have none of the forms.
#[derive(Clone, Copy, Debug, PartialEq, Eq)]
pub struct BadWords;

/// How a run ends.
#[derive(Clone, Copy, Debug, PartialEq, Eq)]
pub enum Status {
    Answered,
    No,
    Refused,
    Budget,
    BadWords,
    BadToken,
    ReadFault,
    WriteFault,
    Memory,
    BadDimension,
}

impl Status {
    /// The number with which the process ends.
    pub fn number(self) -> u8
        ensures { result ≡ status_number self }
    {
        match self {
            Status::Answered => 0,
            Status::No => 1,
            Status::Refused => 2,
            Status::Budget => 3,
            Status::BadWords => 4,
            Status::BadToken => 5,
            Status::ReadFault => 6,
            Status::WriteFault => 7,
            Status::Memory => 8,
            Status::BadDimension => 9,
        }
    }
}
