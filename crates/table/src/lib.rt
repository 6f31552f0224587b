// The problem table of document 01: its limits, how it is read, and why it is refused.
#![tactic(auto)]

ghost use Rattle.std.specs.Prelude.{◌≡◌};
ghost use Rattle.table.specs.Answer.{number_of};

// The numbers that document 01 fixes for a table.
pub mod limits;

// How sections, nodes and arguments are read.
pub mod layout;

// The number of a node.
#[derive(Clone, Copy, PartialEq, Eq, PartialOrd, Ord)]
pub struct Node(pub u32);

// The number of a variable.
#[derive(Clone, Copy, PartialEq, Eq, PartialOrd, Ord)]
pub struct Variable(pub u32);

// A label: document 000's multiset variable. It and a variable of equal number are unrelated.
#[derive(Clone, Copy, PartialEq, Eq, PartialOrd, Ord)]
pub struct Label(pub u32);

// Why a call is refused, in document 01's order: the first seven by any operation that takes a table.
#[derive(Clone, Copy, Debug, PartialEq, Eq)]
pub enum Refusal {
    TooFewWords,
    BrokenPair,
    OverLimit,
    WrongNode,
    WrongArgument,
    WrongTerm,
    WrongLabel,
    NotANode,
    TooFewLent,
}

impl Refusal {
    // Document 01's number of a refusal.
    pub fn number(self) -> u32
        ensures { result ≡ number_of self }
    {
        match self {
            Refusal::TooFewWords => 1,
            Refusal::BrokenPair => 2,
            Refusal::OverLimit => 3,
            Refusal::WrongNode => 4,
            Refusal::WrongArgument => 5,
            Refusal::WrongTerm => 6,
            Refusal::WrongLabel => 7,
            Refusal::NotANode => 8,
            Refusal::TooFewLent => 9,
        }
    }
}
