// The check of a book in whole millionths, before anything is worked out from it.
#![tactic(auto)]

ghost use Rattle.std.specs.Prelude.{◌*◌, ◌≤◌, ◌≡◌, Err, length};
ghost use Rattle.intake_answers.specs.Answers.{refusal_of};
ghost use Rattle.intake.specs.Intake.{same_z, in_range, on_diagonal, cause_of, caused, fault_of, shape_of, shape_number, intake_of};
ghost use Rattle.refusals.specs.Table.{refused, number_of as shapeNumberOf, refusal_of as shapeRefusalOf};

use intake_answers::{Intake, IntakeError};
use refusals::{Answer, Cause};

// Whether two cells are the same number.
fn same(x: i64, y: i64) -> bool
    ensures { result ≡ same_z x y }
{
    x == y
}

// Whether a cell is within -1,000,000 and 1,000,000.
fn in_range(x: i64) -> bool
    ensures { result ≡ in_range x }
{
    if x < -1000000 {
        return false;
    }
    x <= 1000000
}

// Whether a cell may stand on the diagonal, if it does.
#[tactic(auto, unfolding(crate::specs::Intake::on_diagonal))]
fn on_diagonal(x: i64, diagonal: bool) -> bool
    ensures { result ≡ on_diagonal x diagonal }
{
    !diagonal || same(x, 1000000)
}

// Whether the cell x at place t, with the mirror y, is right; if not, why.
fn check_cell(x: i64, y: i64, diagonal: bool, t: usize) -> Intake
    ensures { refusal_of result ≡ caused (cause_of x y diagonal) t }
{
    if !in_range(x) {
        return Err(IntakeError::Range(t));
    }
    if !on_diagonal(x, diagonal) {
        return Err(IntakeError::Diagonal(t));
    }
    if !same(x, y) {
        return Err(IntakeError::Mirror(t));
    }
    Ok(())
}

// Whether every cell of a book of n names is right; if not, why and where, by the first one row by row.
fn check_cells(cells: &[i64], n: usize) -> Intake
    requires { (n ≤ 256) × (length cells.now ≡ n * n) }
    ensures { refusal_of result ≡ fault_of cells.now n }
{
    for (t, x) in cells.iter().enumerate() {
        let i = t / n;
        let j = t % n;
        check_cell(*x, cells[j * n + i], i == j, t)?;
    }
    Ok(())
}

// The shape of a book of so many rows, columns and cells: 2, 4 or 5, then 6 where the other lists of the call do not fit.
pub fn check_shape(rows: usize, cols: usize, cells: usize, fits: bool) -> Answer
    ensures { shapeRefusalOf result ≡ shape_of rows cols cells fits }
{
    if rows != cols {
        return Err(Cause::InvalidCorrelationMatrix);
    }
    refusals::check(cells, rows, rows, fits, 0, 0)
}

// The refusal of a book by its shape.
#[tactic(auto, using(std::proofs::lemmas::Bool::Decides::nat_tests), unfolding(crate::specs::Intake::shape_number))]
fn shape_error(cause: Cause) -> IntakeError
    ensures { refusal_of (Err result) ≡ refused (shape_number (shapeNumberOf (Err cause))) }
{
    match cause {
        Cause::InvalidCorrelationMatrix => IntakeError::InvalidCorrelationMatrix,
        Cause::TooLarge => IntakeError::TooLarge,
        _ => IntakeError::CellCount,
    }
}

// Whether a book of so many rows and columns, its cells in whole millionths row by row, is proper; if not, why and where.
pub fn check_book(cells: &[i64], rows: usize, cols: usize) -> Intake
    ensures { refusal_of result ≡ intake_of cells.now rows cols }
{
    check_shape(rows, cols, cells.len(), true).map_err(shape_error)?;
    check_cells(cells, rows)
}
