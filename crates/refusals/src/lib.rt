// The rows by which a call is refused: specifications only, with the types of a refusal.
#![tactic(auto)]

ghost use Rattle.std.specs.Prelude.{◌≡◌};
ghost use Rattle.refusals.specs.Numbers.{row_number};

// The rows of "Where a call stops", by their numbers.
#[derive(Clone, Copy)]
pub enum Row {
    // n is 0 or above the most.
    Count = 1,
    // The store is too short.
    Store = 2,
    // A record's kind is out of order.
    Kind = 3,
    // The widths are outside their limits.
    Widths = 4,
    // A field is outside its range or width.
    Field = 5,
    // A link ends at a point that it may not have.
    Link = 6,
    // A miss is not that of the next switch, or misses are incomplete.
    Miss = 7,
    // The same rule stands twice.
    SameRule = 8,
    // A policy node has no such operand, or stands in no such policy.
    Node = 9,
    // There is one rule, policy or node too many.
    Limit = 10,
    // The work is too short.
    Work = 11,
    // The command is faulty.
    Command = 12,
    // The command would add one rule too many.
    Full = 13,
    // A route's start or end is no state.
    State = 14,
    // The list is too short.
    List = 15,
    // A group is faulty, or one that is named is absent.
    Group = 16,
}

// A call is refused: by which row, and at which place. Made in full where it is made: a row alone does not say its place, so that
// there is no From<Row>, and no `?` of a row.
#[derive(Clone, Copy)]
pub struct Refused {
    pub row: Row,
    pub place: usize,
}

impl Row {
    // The row's number. A method and no From: of a `usize` nothing tells that it is a row's number.
    pub fn number(self) -> usize
        ensures { result ≡ row_number self }
    {
        // The number of a variant, which Rust tells by `as` alone.
        self as usize
    }
}
