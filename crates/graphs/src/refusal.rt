// Why an operation is refused, as the refusal table of every operation has it.
ghost use Rattle.std.specs.Prelude.{◌≡◌};

use std::error::Error;
use std::fmt;

// A line of the refusal table. The place is 0 but where a line says otherwise.
#[derive(Clone, Copy, Debug, PartialEq, Eq)]
pub enum Refusal {
    // 1: There are more than 64 rows, or a file counts more than 64.
    TooManyRows,
    // 2: There are not as many costs as rows.
    UnequalCosts,
    // 3: A row has a bit at the number of rows or above. The place is the lowest such row.
    RowOutside(usize),
    // 4: The lent room is too small for a component. The place is the lowest flip-flop of the first such component.
    RoomTooSmall { component: usize },
    // 5: The file is shorter than its header, or does not begin with the mark.
    Foreign,
    // 6: The file has another version than 1.
    OtherVersion,
    // 7: The file is not as long as its count says.
    OtherLength,
    // 8: A lent output is too short.
    OutputTooShort,
    // 9: The kept set has a flip-flop at the number of rows or above.
    KeptOutside,
}

impl Refusal {
    ghost use Rattle.graphs.specs.Refusals.{number_of, place_of};

    // The number of its line in the table.
    pub fn number(&self) -> u64
        ensures { result ≡ number_of self.now }
    {
        match self {
            Refusal::TooManyRows => 1,
            Refusal::UnequalCosts => 2,
            Refusal::RowOutside(_) => 3,
            Refusal::RoomTooSmall { .. } => 4,
            Refusal::Foreign => 5,
            Refusal::OtherVersion => 6,
            Refusal::OtherLength => 7,
            Refusal::OutputTooShort => 8,
            Refusal::KeptOutside => 9,
        }
    }

    // What it points at: a row, the lowest flip-flop of a component, or 0 where there is nothing to point at.
    pub fn place(&self) -> u64
        ensures { result ≡ place_of self.now }
    {
        match self {
            Refusal::RowOutside(row) => *row as u64,
            Refusal::RoomTooSmall { component } => *component as u64,
            _ => 0,
        }
    }
}

impl fmt::Display for Refusal {
    fn fmt<W: fmt::Write>(&self, f: &mut fmt::Formatter<W>) -> fmt::Result {
        write!(f, "refused {} {}", self.number(), self.place())
    }
}

impl Error for Refusal {}
