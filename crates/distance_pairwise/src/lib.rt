// The distances between the rows of a matrix, to a list of the caller's: of plain points, and of the distances of a book
// that is read through a list of row numbers.
#![tactic(auto)]

ghost use Rattle.std.specs.Prelude.{◌≡◌, ◌≤◌, ◌*◌, length};
ghost use Rattle.lists.specs.Lists.{cell_at, part, matrix_of};
ghost use Rattle.refusals.specs.Table.{refusal_of, refusal, wiped};
ghost use Rattle.distance.specs.Distance.{Readable, dist_at};
ghost use Rattle.distance_columns.specs.Pair.{pair_at};
ghost use Rattle.areas.specs.Pairs.{pairs_area};
ghost use Rattle.areas.specs.Regions.{Area};
ghost use Rattle.distance_pairwise.specs.Leaves.{lists_fit, Fitting, pairwise_distances, pairwise_distances_through};

use refusals::Answer;

// The four areas of n points of n columns each. Inner form.
fn point_pairs(points: &[f64], n: usize, area: &mut [f64])
    requires { Area area.old n × (length points.now ≡ n * n) }
    ensures { area.new ≡ pairs_area (cell_at points.now n) n }
{
    let second = n * n;
    area[..second].copy_from_slice(points);
    areas::pairs_in(area, n);
}

// The fourth area to `out`; the front part of `floats` is left zero. Inner form.
fn hand_out(m: usize, out: &mut [f64], floats: &mut [f64])
    requires { Fitting m out.old floats.old }
    ensures { (out.new ≡ part (3 * (m * m)) (m * m) floats.old) × (floats.new ≡ wiped m floats.old) }
{
    let pairs = 3 * (m * m);
    let end = pairs + m * m;
    out.copy_from_slice(&floats[pairs..end]);
    refusals::wipe_doubles(m, floats);
}

// The pair distances of n points of n columns each to `out`; the front part of `floats` is left zero. Inner form: the lists fit.
fn measure_points(points: &[f64], n: usize, out: &mut [f64], floats: &mut [f64])
    requires { Fitting n out.old floats.old × (length points.now ≡ n * n) }
    ensures { (out.new ≡ matrix_of (pair_at (cell_at points.now n) n) n) × (floats.new ≡ wiped n floats.old) }
{
    let end = 4 * (n * n);
    point_pairs(points, n, &mut floats[..end]);
    hand_out(n, out, floats);
}

// The same of the distances of the book that the rows make. Inner form.
fn measure_book(book: &[f64], n: usize, rows: &[usize], out: &mut [f64], floats: &mut [f64])
    requires { Fitting (length rows.now) out.old floats.old × Readable book.now n rows.now }
    ensures { (out.new ≡ matrix_of (pair_at (dist_at book.now n rows.now) (length rows.now)) (length rows.now)) × (floats.new ≡ wiped (length rows.now) floats.old) }
{
    let m = rows.len();
    let end = 4 * (m * m);
    areas::book_pairs(book, n, rows, &mut floats[..end]);
    hand_out(m, out, floats);
}

// Whether an output and a working list have the lengths for m items, for at most 256 items.
fn lists_fit(m: usize, out: usize, floats: usize) -> bool
    ensures { m ≤ 256 → result ≡ lists_fit m out floats }
{
    refusals::is_square(out, m) && refusals::has_room(floats, m)
}

// The first row of the table that applies.
fn check_lists(
    cells: usize,
    n: usize,
    m: usize,
    out: usize,
    floats: usize,
    bad: usize,
    count: usize,
) -> Answer
    ensures { refusal_of result ≡ refusal cells n m (lists_fit m out floats) bad count }
{
    refusals::check(cells, n, m, lists_fit(m, out, floats), bad, count)
}

// The distances between n points of n columns each.
pub fn pairwise_distances(points: &[f64], n: usize, out: &mut [f64], floats: &mut [f64]) -> Answer
    ensures { record { answer = refusal_of result; out = out.new; floats = floats.new } ≡ pairwise_distances points.now n out.old floats.old }
{
    check_lists(points.len(), n, n, out.len(), floats.len(), 0, 0)?;
    measure_points(points, n, out, floats);
    Ok(())
}

// The same of the distances of the book that the rows make.
pub fn pairwise_distances_through(
    book: &[f64],
    n: usize,
    rows: &[usize],
    out: &mut [f64],
    floats: &mut [f64],
) -> Answer
    ensures { record { answer = refusal_of result; out = out.new; floats = floats.new } ≡ pairwise_distances_through book.now n rows.now out.old floats.old }
{
    let m = rows.len();
    let bad = lists::first_from(n, rows);
    check_lists(book.len(), n, m, out.len(), floats.len(), bad, m)?;
    measure_book(book, n, rows, out, floats);
    Ok(())
}
