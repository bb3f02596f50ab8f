// The squared distance of two lists, and of two items of a book that is read through a list of row numbers.
#![tactic(auto)]

ghost use Rattle.std.specs.Prelude.{◌≡◌, true, ◌<◌, ◌≤◌, ◌+◌, length};
ghost use Rattle.lists.specs.Lists.{first_from};
ghost use Rattle.refusals.specs.Table.{refusal_of, refusal};
ghost use Rattle.distance.specs.Distance.{dist_at, Readable};
ghost use Rattle.distance_columns.specs.Pair.{squared_at};
ghost use Rattle.distance_squared.specs.Leaves as leaves;
ghost use Rattle.distance_squared.specs.Leaves.{measured_of};

use refusals::{Answer, Cause};

// The squares of the differences, in order, of the columns that both lists have.
pub fn squared_distance(a: &[f64], b: &[f64]) -> f64
    ensures { result ≡ leaves.squared_distance a.now b.now }
{
    let mut sum = 0.0;
    for (x, y) in a.iter().zip(b) {
        let d = *x - *y;
        sum = sum + d * d;
    }
    sum
}

// The squared distance of items i and j of the book that the rows make. Inner form.
fn squared_between(book: &[f64], n: usize, rows: &[usize], i: usize, j: usize) -> f64
    requires { Readable book.now n rows.now × (i < length rows.now) × (j < length rows.now) }
    ensures { result ≡ squared_at (dist_at book.now n rows.now) (length rows.now) i j }
{
    let m = rows.len();
    let mut sum = 0.0;
    for c in 0..m {
        let d = distance::distance(distance::cell_at(book, n, rows, i, c))
            - distance::distance(distance::cell_at(book, n, rows, j, c));
        sum = sum + d * d;
    }
    sum
}

// The place of the first bad number among the rows, i and j; m + 2 if none.
#[tactic(auto, using(std::proofs::lemmas::Bool::Decides::nat_tests), unfolding(crate::specs::Leaves::first_bad))]
fn first_bad(bad: usize, m: usize, i: usize, j: usize) -> usize
    requires { m ≤ 256 }
    ensures { result ≡ leaves.first_bad bad m i j }
{
    if bad < m {
        return bad;
    }
    if m <= i {
        return m;
    }
    if m <= j {
        return m + 1;
    }
    m + 2
}

// The first row of the table that applies to a book read through the rows, and two of its items.
fn check_items(cells: usize, n: usize, rows: &[usize], i: usize, j: usize) -> Answer
    ensures { refusal_of result ≡ refusal cells n (length rows.now) true (leaves.first_bad (first_from n rows.now) (length rows.now) i j) (length rows.now + 2) }
{
    let m = rows.len();
    if m > 256 {
        return refusals::check(cells, n, m, true, 0, 0);
    }
    let bad = first_bad(lists::first_from(n, rows), m, i, j);
    refusals::check(cells, n, m, true, bad, m + 2)
}

// The squared distance of items i and j of the book that the rows make, or why there is none.
pub fn squared_distance_through(
    book: &[f64],
    n: usize,
    rows: &[usize],
    i: usize,
    j: usize,
) -> Result<f64, Cause>
    ensures { measured_of result ≡ leaves.squared_distance_through book.now n rows.now i j }
{
    check_items(book.len(), n, rows, i, j)?;
    Ok(squared_between(book, n, rows, i, j))
}
