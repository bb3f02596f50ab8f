// The checks that the grouping makes before its run.
#![tactic(auto)]

ghost use Rattle.std.specs.Prelude.{◌≡◌, ◌≤◌};
ghost use Rattle.onc_answers.specs.Answers.{refusal_of};
ghost use Rattle.onc_checks.specs.Checks.{lists_fit, shape_of};

use onc_answers::OncError;

// Whether the outputs have their lengths and the working lists have room. Of more than 256 names nothing is promised: those are refused by 4.
pub fn lists_fit(
    n: usize,
    order: usize,
    sizes: usize,
    scores: usize,
    ordered: usize,
    floats: usize,
    numbers: usize,
) -> bool
    ensures { n ≤ 256 → result ≡ lists_fit n order sizes scores ordered floats numbers }
{
    order == n
        && sizes == n
        && scores == n
        && refusals::is_square(ordered, n)
        && refusals::has_room(floats, n)
        && refusals::has_numbers(numbers, n)
}

// The first row that keeps every list; Ok where none of them applies.
pub fn check(
    repeat: usize,
    rows: usize,
    cols: usize,
    cells: usize,
    fits: bool,
) -> Result<(), OncError>
    ensures { refusal_of result ≡ shape_of repeat rows cols cells fits }
{
    if repeat == 0 {
        return Err(OncError::InvalidRepeat);
    }
    if rows != cols || rows < 2 {
        return Err(OncError::InvalidCorrelationMatrix);
    }
    if repeat > 64 || rows > 256 {
        return Err(OncError::TooLarge);
    }
    if cells != rows * rows {
        return Err(OncError::CellCount);
    }
    if !fits {
        return Err(OncError::ListLength);
    }
    Ok(())
}
