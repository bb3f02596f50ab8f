// Squared distances from one item to all, for all items at a time: column by column, four columns a turn, and contiguous
// over the items. Each item's sum keeps the order of the columns.
#![tactic(auto)]

ghost use Rattle.std.specs.Prelude.{◌≡◌, ◌≤◌, ◌<◌, ◌+◌, ◌-◌, ◌*◌, length};
ghost use Rattle.lists.specs.Lists.{listed, cells, part};
ghost use Rattle.distance_columns.specs.Columns.{added, added_four, Tail, sums_from};

// One column: to each sum the square of x less the column's cell.
fn add_column(sums: &mut [f64], column: &[f64], x: f64)
    requires { length column.now ≡ length sums.old }
    ensures { sums.new ≡ listed (λ j. added (cells sums.old j) (cells column.now j) x) (length sums.old) }
{
    for (j, y) in column.iter().enumerate() {
        let d = x - *y;
        sums[j] = sums[j] + d * d;
    }
}

// Four columns, one after the other, with one load and one store of each sum.
fn add_four(
    sums: &mut [f64],
    a: &[f64],
    b: &[f64],
    c: &[f64],
    d: &[f64],
    w: f64,
    x: f64,
    y: f64,
    z: f64,
)
    requires { (length a.now ≡ length sums.old) × (length b.now ≡ length sums.old) × (length c.now ≡ length sums.old) × (length d.now ≡ length sums.old) }
    ensures { sums.new ≡ listed (λ j. added_four (cells sums.old j) (cells a.now j) (cells b.now j) (cells c.now j) (cells d.now j) w x y z) (length sums.old) }
{
    let m = sums.len();
    for j in 0..m {
        let p = w - a[j];
        let q = x - b[j];
        let r = y - c[j];
        let s = z - d[j];
        sums[j] = sums[j] + p * p + q * q + r * r + s * s;
    }
}

// Column c of the items from `from` on.
fn column_of(across: &[f64], m: usize, c: usize, from: usize) -> &[f64]
    requires { (m ≤ 256) × (length across.now ≡ m * m) × (c < m) × (from ≤ m) }
    ensures { result.now ≡ part (c * m + from) (m - from) across.now }
{
    let at = c * m + from;
    let end = c * m + m;
    &across[at..end]
}

// Columns by fours, from the first; answers how many were added.
fn add_fours(own: &[f64], across: &[f64], from: usize, sums: &mut [f64]) -> usize
    requires tail { Tail own.now across.now from sums.old }
    requires sums_value { sums.old ≡ sums_from own.now across.now from 0 }
    ensures { (result ≤ length own.now) × (sums.new ≡ sums_from own.now across.now from result) }
{
    let m = own.len();
    let mut c = 0;
    while c + 4 <= m {
        let c1 = c + 1;
        let c2 = c + 2;
        let c3 = c + 3;
        add_four(
            sums,
            column_of(across, m, c, from),
            column_of(across, m, c1, from),
            column_of(across, m, c2, from),
            column_of(across, m, c3, from),
            own[c],
            own[c1],
            own[c2],
            own[c3],
        );
        c = c + 4;
    }
    c
}

// The columns from `first` on, one by one.
fn add_rest(own: &[f64], across: &[f64], from: usize, first: usize, sums: &mut [f64])
    requires tail { Tail own.now across.now from sums.old }
    requires first_in_bounds { (first ≤ length own.now) × (sums.old ≡ sums_from own.now across.now from first) }
    ensures { sums.new ≡ sums_from own.now across.now from (length own.now) }
{
    let m = own.len();
    for c in first..m {
        add_column(sums, column_of(across, m, c, from), own[c]);
    }
}

// The squared distances from the item whose columns are `own` to each item from `from` on. Inner form.
pub fn squared_tail(own: &[f64], across: &[f64], from: usize, sums: &mut [f64])
    requires { Tail own.now across.now from sums.old }
    ensures { sums.new ≡ sums_from own.now across.now from (length own.now) }
{
    sums.fill(0.0);
    let c = add_fours(own, across, from, sums);
    add_rest(own, across, from, c, sums);
}
