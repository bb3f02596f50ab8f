// What the grouping answers.
#![tactic(auto)]

ghost use Rattle.std.specs.Prelude.{◌≡◌};
ghost use Rattle.onc_answers.specs.declared.OncError.TheVariants.{Stopped};
ghost use Rattle.onc_answers.specs.Answers.{number_of, place_of, groups_of, read_of};

use draws::Stop;

// A grouping: the number of its groups, and of the draws read.
#[derive(Clone, Copy)]
pub struct Grouped {
    pub groups: usize,
    pub draws: usize,
}

// The first row of the table of refusals that applies.
#[derive(Clone, Copy)]
pub enum OncError {
    InvalidRepeat,
    InvalidCorrelationMatrix,
    TooLarge,
    CellCount,
    ListLength,
    Stopped(Stop),
}

// What the grouping answers.
pub type Onc = Result<Grouped, OncError>;

// What ended a run, as a refusal of the grouping.
impl From<Stop> for OncError {
    ghost from_gives = { λ s e. e ≡ Stopped s };

    fn from(s: Stop) -> OncError {
        OncError::Stopped(s)
    }
}

// The table's number; 0 for a grouping.
pub fn number_of(a: Onc) -> usize
    ensures { result ≡ number_of a }
{
    match a {
        Ok(_) => 0,
        Err(OncError::InvalidRepeat) => 1,
        Err(OncError::InvalidCorrelationMatrix) => 2,
        Err(OncError::TooLarge) => 4,
        Err(OncError::CellCount) => 5,
        Err(OncError::ListLength) => 6,
        Err(OncError::Stopped(s)) => draws::stop_number(s),
    }
}

// The table's place; 0 where it names none.
pub fn place_of(a: Onc) -> usize
    ensures { result ≡ place_of a }
{
    match a {
        Err(OncError::Stopped(s)) => draws::stop_place(s),
        _ => 0,
    }
}

// How many groups; 0 for a refusal.
pub fn groups_of(a: Onc) -> usize
    ensures { result ≡ groups_of a }
{
    match a {
        Ok(g) => g.groups,
        Err(_) => 0,
    }
}

// The draws read; 0 for a refusal.
pub fn read_of(a: Onc) -> usize
    ensures { result ≡ read_of a }
{
    match a {
        Ok(g) => g.draws,
        Err(_) => 0,
    }
}
