// What the check of a book in whole millionths answers, by the table of refusals.
#![tactic(auto)]

ghost use Rattle.std.specs.Prelude.{◌≡◌};
ghost use Rattle.intake_answers.specs.Answers.{number_of, place_of};

// The first row of the table that applies. The last three hold the cell's place, row times n plus column.
#[derive(Clone, Copy)]
pub enum IntakeError {
    InvalidCorrelationMatrix,
    TooLarge,
    CellCount,
    Range(usize),
    Diagonal(usize),
    Mirror(usize),
}

// A proper book, or why it is none.
pub type Intake = Result<(), IntakeError>;

// The table's number; 0 for a proper book.
pub fn number_of(a: Intake) -> usize
    ensures { result ≡ number_of a }
{
    match a {
        Ok(()) => 0,
        Err(IntakeError::InvalidCorrelationMatrix) => 2,
        Err(IntakeError::TooLarge) => 4,
        Err(IntakeError::CellCount) => 5,
        Err(IntakeError::Range(_t)) => 21,
        Err(IntakeError::Diagonal(_t)) => 22,
        Err(IntakeError::Mirror(_t)) => 23,
    }
}

// The table's place; 0 where it names none.
pub fn place_of(a: Intake) -> usize
    ensures { result ≡ place_of a }
{
    match a {
        Err(IntakeError::Range(t)) => t,
        Err(IntakeError::Diagonal(t)) => t,
        Err(IntakeError::Mirror(t)) => t,
        _ => 0,
    }
}
