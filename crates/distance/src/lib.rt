// Distances of a book of correlations, on plain lent lists and through a list of row numbers. A book that is read
// through row numbers is read where it lies; only `submatrix` copies cells, to the list that the caller lends for them.
#![tactic(auto)]

ghost use Rattle.std.specs.Prelude.{◌≡◌, ◌<◌, ◌*◌, eqb, length};
ghost use Rattle.lists.specs.Lists.{cells, listed, matrix_of, first_from};
ghost use Rattle.refusals.specs.Table.{refusal_of, refusal};
ghost use Rattle.distance.specs.Distance as spec;
ghost use Rattle.distance.specs.Distance.{cell_through, dist_at, Readable};
ghost use Rattle.distance.specs.Leaves as leaves;

use refusals::Answer;

// c, clamped to -1..1; a NaN passes.
fn clamp(c: f64) -> f64
    ensures { result ≡ spec.clamped c }
{
    if c < -1.0 {
        return -1.0;
    }
    if c > 1.0 {
        return 1.0;
    }
    c
}

// The distance of two names with the correlation c.
pub fn distance(c: f64) -> f64
    ensures { result ≡ spec.distance_of c }
{
    sqrt::sqrt((1.0 - clamp(c)) / 2.0)
}

// Row i, column j of the book that the rows make. Inner form.
pub fn cell_at(book: &[f64], n: usize, rows: &[usize], i: usize, j: usize) -> f64
    requires { Readable book.now n rows.now × (i < length rows.now) × (j < length rows.now) }
    ensures { result ≡ cell_through book.now n rows.now i j }
{
    let r = rows[i];
    let s = rows[j];
    let at = r * n + s;
    book[at]
}

// Row i of the book that the rows make. Inner form.
fn cell_row(book: &[f64], n: usize, rows: &[usize], i: usize, out: &mut [f64])
    requires { Readable book.now n rows.now × (i < length rows.now) × (length out.old ≡ length rows.now) }
    ensures { out.new ≡ listed (cell_through book.now n rows.now i) (length rows.now) }
{
    let m = rows.len();
    for j in 0..m {
        out[j] = cell_at(book, n, rows, i, j);
    }
}

// The cells of the book that the rows make, row by row: the ordered matrix, where the rows are the order. Inner form.
pub fn fill_cells(book: &[f64], n: usize, rows: &[usize], out: &mut [f64])
    requires { Readable book.now n rows.now × (0 < length rows.now) × (length out.old ≡ length rows.now * length rows.now) }
    ensures { out.new ≡ matrix_of (cell_through book.now n rows.now) (length rows.now) }
{
    let m = rows.len();
    for i in 0..m {
        let at = i * m;
        let end = at + m;
        cell_row(book, n, rows, i, &mut out[at..end]);
    }
}

// The distances in row i of the book that the rows make. Inner form.
fn distance_row(book: &[f64], n: usize, rows: &[usize], i: usize, out: &mut [f64])
    requires { Readable book.now n rows.now × (i < length rows.now) × (length out.old ≡ length rows.now) }
    ensures { out.new ≡ listed (dist_at book.now n rows.now i) (length rows.now) }
{
    let m = rows.len();
    for j in 0..m {
        out[j] = distance(cell_at(book, n, rows, i, j));
    }
}

// The distances of the book that the rows make, row by row. Inner form.
pub fn fill_distances(book: &[f64], n: usize, rows: &[usize], out: &mut [f64])
    requires { Readable book.now n rows.now × (0 < length rows.now) × (length out.old ≡ length rows.now * length rows.now) }
    ensures { out.new ≡ matrix_of (dist_at book.now n rows.now) (length rows.now) }
{
    let m = rows.len();
    for i in 0..m {
        let at = i * m;
        let end = at + m;
        distance_row(book, n, rows, i, &mut out[at..end]);
    }
}

// Each cell's distance.
fn distances_of(book: &[f64], out: &mut [f64])
    requires { length out.old ≡ length book.now }
    ensures { out.new ≡ listed (λ t. spec.distance_of (cells book.now t)) (length book.now) }
{
    for (t, c) in book.iter().enumerate() {
        out[t] = distance(*c);
    }
}

// The distances of a book of n names, row by row in `out`; a refusal leaves `out` as it was.
pub fn corr_to_distance(book: &[f64], n: usize, out: &mut [f64]) -> Answer
    ensures { record { answer = refusal_of result; out = out.new } ≡ leaves.corr_to_distance book.now n out.old }
{
    let fits = refusals::is_square(out.len(), n);
    refusals::check(book.len(), n, n, fits, 0, 0)?;
    distances_of(book, out);
    Ok(())
}

// The same of the book that the rows make.
pub fn corr_to_distance_through(book: &[f64], n: usize, rows: &[usize], out: &mut [f64]) -> Answer
    ensures { record { answer = refusal_of result; out = out.new } ≡ leaves.corr_to_distance_through book.now n rows.now out.old }
{
    check_rows(book.len(), n, rows, out.len())?;
    fill_distances(book, n, rows, out);
    Ok(())
}

// The cells of the book that the rows make.
pub fn submatrix(book: &[f64], n: usize, rows: &[usize], out: &mut [f64]) -> Answer
    ensures { record { answer = refusal_of result; out = out.new } ≡ leaves.submatrix_of book.now n rows.now out.old }
{
    check_rows(book.len(), n, rows, out.len())?;
    fill_cells(book, n, rows, out);
    Ok(())
}

// The first row of the table that applies to a book read through the rows, and an output of `out` cells.
fn check_rows(cells: usize, n: usize, rows: &[usize], out: usize) -> Answer
    ensures { refusal_of result ≡ refusal cells n (length rows.now) (eqb out (length rows.now * length rows.now)) (first_from n rows.now) (length rows.now) }
{
    let m = rows.len();
    let fits = refusals::is_square(out, m);
    let bad = lists::first_from(n, rows);
    refusals::check(cells, n, m, fits, bad, m)
}
