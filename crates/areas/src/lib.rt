// The areas of a round's list of doubles, m by m cells each. The first has the points, m items of m columns; their transpose, the
// squared pair distances and the pair distances are filled from it here. The fifth, the table of Lloyd's passes, is filled by lloyd_table.
#![tactic(auto)]

ghost use Rattle.std.specs.Prelude.{◌≡◌, ◌<◌, ◌≤◌, ◌+◌, ◌-◌, ◌*◌, length, take};
ghost use Rattle.sqrt.specs.Root.{root};
ghost use Rattle.lists.specs.Lists.{listed, cells, cell_at, put, matrix_of};
ghost use Rattle.distance.specs.Distance.{Readable, dist_at};
ghost use Rattle.distance_columns.specs.Pair.{squared_at, pair_at};
ghost use Rattle.areas.specs.Pairs.{pairs_area};
ghost use Rattle.areas.specs.Regions.{Area, Turned, Squaring, Summed, Rooted};
ghost use Rattle.distance_columns.specs.Columns.{points_at};

// The root of each of `count` cells, further on in the same list. Inner form, as all functions here.
fn root_cells(area: &mut [f64], from: usize, to: usize, count: usize)
    requires { (from + count ≤ to) × (to + count ≤ length area.old) }
    ensures { area.new ≡ put to count area.old (listed (λ j. root (cells area.old (from + j))) count) }
{
    for j in 0..count {
        let cell = from + j;
        let at = to + j;
        area[at] = sqrt::sqrt(area[cell]);
    }
}

// The transpose of the points, row by row.
fn transpose(area: &mut [f64], m: usize)
    requires { Area area.old m }
    ensures { area.new ≡ put (m * m) (m * m) area.old (matrix_of (λ i j. points_at area.old m j i) m) }
{
    let second = m * m;
    for i in 0..m {
        let to = second + i * m;
        lists::gather(area, i, m, to, m);
    }
}

// The squared distances of item i to each item from i on.
fn squared_item(area: &[f64], m: usize, i: usize, sums: &mut [f64])
    requires { Turned area.now m × (i < m) × (length sums.old ≡ m - i) }
    ensures { sums.new ≡ listed (λ j. squared_at (points_at area.now m) m i (i + j)) (m - i) }
{
    let second = m * m;
    let third = second + second;
    distance_columns::squared_tail(lists::row_of(area, m, i), &area[second..third], i, sums);
}

// Row i of the squared pair distances: the cells before column i are those of column i in the rows above. The others are
// worked out in `sums`, since the list is read meanwhile.
fn square_row(area: &mut [f64], m: usize, i: usize, sums: &mut [f64])
    requires { Squaring area.old m i × (length sums.old ≡ m - i) }
    ensures { area.new ≡ put (2 * (m * m) + i * m) m area.old (listed (squared_at (points_at area.old m) m i) m) }
{
    squared_item(area, m, i, sums);
    let third = 2 * (m * m);
    let at = third + i * m;
    lists::gather(area, third + i, m, at, i);
    let from = at + i;
    let end = at + m;
    lists::copy(sums, &mut area[from..end]);
}

// The squared pair distances, row by row, each pair worked out once.
fn square_rows(area: &mut [f64], m: usize, sums: &mut [f64])
    requires { Turned area.old m × (length sums.old ≡ m) }
    ensures { area.new ≡ put (2 * (m * m)) (m * m) area.old (matrix_of (squared_at (points_at area.old m) m) m) }
{
    for i in 0..m {
        let tail = m - i;
        square_row(area, m, i, &mut sums[..tail]);
    }
}

// The same, with a row to work in.
fn square_all(area: &mut [f64], m: usize)
    requires { Turned area.old m }
    ensures { area.new ≡ put (2 * (m * m)) (m * m) area.old (matrix_of (squared_at (points_at area.old m) m) m) }
{
    let mut sums = lists::buffer::<f64, 256>(0.0);
    square_rows(area, m, &mut sums[..m]);
}

// Row i of the pair distances: the cells before column i are those of column i in the rows above, the others are roots.
fn pair_row(area: &mut [f64], m: usize, i: usize)
    requires { Rooted area.old m i }
    ensures { area.new ≡ put (3 * (m * m) + i * m) m area.old (listed (pair_at (points_at area.old m) m i) m) }
{
    let third = 2 * (m * m);
    let fourth = 3 * (m * m);
    let at = i * m;
    lists::gather(area, fourth + i, m, fourth + at, i);
    root_cells(area, third + at + i, fourth + at + i, m - i);
}

// The pair distances, each pair rooted once.
fn root_all(area: &mut [f64], m: usize)
    requires { Summed area.old m }
    ensures { area.new ≡ put (3 * (m * m)) (m * m) area.old (matrix_of (pair_at (points_at area.old m) m) m) }
{
    for i in 0..m {
        pair_row(area, m, i);
    }
}

// The second and the third area, from the points in the first: what k-means reads. Inner form. The fourth is left with anything.
pub fn squares_in(area: &mut [f64], m: usize)
    requires { Area area.old m }
    ensures { Turned area.new m × Summed area.new m × (take (m * m) area.new ≡ take (m * m) area.old) }
{
    transpose(area, m);
    square_all(area, m);
}

// The other three areas, from the points in the first. Inner form.
pub fn pairs_in(area: &mut [f64], m: usize)
    requires { (0 < m) × (m ≤ 256) × (length area.old ≡ 4 * (m * m)) }
    ensures { area.new ≡ pairs_area (cell_at area.old m) m }
{
    transpose(area, m);
    square_all(area, m);
    root_all(area, m);
}

// The four areas of the distances of the book that the rows make. Inner form, for the rounds.
pub fn book_pairs(book: &[f64], n: usize, rows: &[usize], area: &mut [f64])
    requires { Readable book.now n rows.now × (0 < length rows.now) × (length area.old ≡ 4 * (length rows.now * length rows.now)) }
    ensures { area.new ≡ pairs_area (dist_at book.now n rows.now) (length rows.now) }
{
    let m = rows.len();
    let second = m * m;
    book::distances_through(book, n, rows, &mut area[..second]);
    pairs_in(area, m);
}
