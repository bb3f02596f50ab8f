// A book that is read through a list of row numbers, as a struct of the cells, their width and the row numbers. No cell is
// copied. A function over it takes it apart and calls the covered form in `distance`; the last two make the struct from
// plain lists, for callers that do not hold one.
#![tactic(auto)]

ghost use Rattle.std.specs.Prelude.{◌≡◌, ◌<◌, ◌*◌, length};
ghost use Rattle.lists.specs.Lists.{matrix_of};
ghost use Rattle.refusals.specs.Table.{refusal_of};
ghost use Rattle.distance.specs.Distance.{cell_through, dist_at, Readable};
ghost use Rattle.distance.specs.Leaves.{corr_to_distance_through, submatrix_of};

use refusals::Answer;

// The cells of a whole book of n columns, where they lie, and the rows of it that are read.
#[derive(Drop)]
pub struct Book<'a, 'b> {
    pub cells: &'a [f64],
    pub n: usize,
    pub rows: &'b [usize],
}

// The book that the rows make out of a book of n columns.
pub fn book_of<'a, 'b>(cells: &'a [f64], n: usize, rows: &'b [usize]) -> Book<'a, 'b>
    ensures { result ≡ record { cells = cells.entry; n = n; rows = rows.entry } }
{
    Book { cells, n, rows }
}

// Its distances, row by row. Inner form.
pub fn fill_distances<'a, 'b>(b: Book<'a, 'b>, out: &mut [f64])
    requires { Readable b.cells.now b.n b.rows.now × (0 < length b.rows.now) × (length out.old ≡ length b.rows.now * length b.rows.now) }
    ensures { out.new ≡ matrix_of (dist_at b.entry.cells.now b.entry.n b.entry.rows.now) (length b.entry.rows.now) }
{
    distance::fill_distances(b.cells, b.n, b.rows, out)
}

// Its cells, row by row. Inner form.
pub fn fill_cells<'a, 'b>(b: Book<'a, 'b>, out: &mut [f64])
    requires { Readable b.cells.now b.n b.rows.now × (0 < length b.rows.now) × (length out.old ≡ length b.rows.now * length b.rows.now) }
    ensures { out.new ≡ matrix_of (cell_through b.entry.cells.now b.entry.n b.entry.rows.now) (length b.entry.rows.now) }
{
    distance::fill_cells(b.cells, b.n, b.rows, out)
}

// Its distances, row by row in `out`; a refusal leaves `out` as it was.
pub fn corr_to_distance<'a, 'b>(b: Book<'a, 'b>, out: &mut [f64]) -> Answer
    ensures { record { answer = refusal_of result; out = out.new } ≡ corr_to_distance_through b.entry.cells.now b.entry.n b.entry.rows.now out.old }
{
    distance::corr_to_distance_through(b.cells, b.n, b.rows, out)
}

// The same of its cells.
pub fn submatrix<'a, 'b>(b: Book<'a, 'b>, out: &mut [f64]) -> Answer
    ensures { record { answer = refusal_of result; out = out.new } ≡ submatrix_of b.entry.cells.now b.entry.n b.entry.rows.now out.old }
{
    distance::submatrix(b.cells, b.n, b.rows, out)
}

// The distances of the book that the rows make, of plain lists: what a round reads. Inner form.
pub fn distances_through(cells: &[f64], n: usize, rows: &[usize], out: &mut [f64])
    requires { Readable cells.now n rows.now × (0 < length rows.now) × (length out.old ≡ length rows.now * length rows.now) }
    ensures { out.new ≡ matrix_of (dist_at cells.now n rows.now) (length rows.now) }
{
    fill_distances(book_of(cells, n, rows), out)
}

// Its cells: the ordered matrix, where the rows are the order. Inner form.
pub fn cells_through(cells: &[f64], n: usize, rows: &[usize], out: &mut [f64])
    requires { Readable cells.now n rows.now × (0 < length rows.now) × (length out.old ≡ length rows.now * length rows.now) }
    ensures { out.new ≡ matrix_of (cell_through cells.now n rows.now) (length rows.now) }
{
    fill_cells(book_of(cells, n, rows), out)
}
