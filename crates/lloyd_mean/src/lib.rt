// The mean of the members of a group, and the squared distances of all items to it.
#![tactic(auto)]

ghost use Rattle.std.specs.Prelude.{◌≡◌, ◌≤◌, ◌*◌, length};
ghost use Rattle.std.specs.Float.{binary64};
ghost use Rattle.std.specs.Float.Ieee.{add, mul, div};
ghost use Rattle.lists.specs.Lists.{listed, cells, numbers, cell_at};
ghost use Rattle.lists.specs.Sums.{sum_if, one64, in_group};
ghost use Rattle.lloyd_mean.specs.Groups.{mean_over, distances, Items};

// To each sum the row's cell.
fn add_row(row: &[f64], out: &mut [f64])
    requires { length row.now ≡ length out.old }
    ensures { out.new ≡ listed (λ i. add binary64 (cells out.old i) (cells row.now i)) (length row.now) }
{
    for (i, x) in row.iter().enumerate() {
        out[i] = out[i] + *x;
    }
}

// Each cell times 1 / count, which is worked out once.
fn scale(out: &mut [f64], count: f64)
    ensures { out.new ≡ listed (λ i. mul binary64 (cells out.old i) (div binary64 one64 count)) (length out.old) }
{
    let inverse = 1.0 / count;
    for x in out.iter_mut() {
        *x = *x * inverse;
    }
}

// The rows of the members of group l, summed by rising row.
fn sum_members(points: &[f64], labels: &[usize], l: usize, out: &mut [f64])
    requires { (length labels.now ≤ 256) × (length points.now ≡ length labels.now * length labels.now) × (length out.old ≡ length labels.now) }
    ensures { out.new ≡ listed (λ c. sum_if (in_group (numbers labels.now) l) (λ i. cell_at points.now (length labels.now) i c) (length labels.now)) (length labels.now) }
{
    out.fill(0.0);
    for (i, x) in labels.iter().enumerate() {
        if *x == l {
            add_row(lists::row_of(points, labels.len(), i), out);
        }
    }
}

// The mean of the n members of group l.
fn mean_row(points: &[f64], labels: &[usize], l: usize, n: usize, out: &mut [f64])
    requires { (length labels.now ≤ 256) × (length points.now ≡ length labels.now * length labels.now) × (length out.old ≡ length labels.now) }
    ensures { out.new ≡ listed (mean_over (cell_at points.now (length labels.now)) (numbers labels.now) (length labels.now) n l) (length labels.now) }
{
    sum_members(points, labels, l, out);
    scale(out, lists::count_as_f64(n));
}

// The squared distance of each item to the mean of the n members of group l, which is left in `mean`. Inner form, as the next two.
fn distances_with(
    points: &[f64],
    across: &[f64],
    labels: &[usize],
    l: usize,
    n: usize,
    mean: &mut [f64],
    out: &mut [f64],
)
    requires { Items points.now across.now (length labels.now) × (length mean.old ≡ length labels.now) × (length out.old ≡ length labels.now) }
    ensures { out.new ≡ distances (cell_at points.now (length labels.now)) (length labels.now) (mean_over (cell_at points.now (length labels.now)) (numbers labels.now) (length labels.now) n l) }
{
    mean_row(points, labels, l, n, mean);
    distance_columns::squared_tail(mean, across, 0, out);
}

// The same, with N places of its own for the mean: a list of 256 cells takes longer to make than the mean of few items.
fn distances_on<const N: usize>(
    points: &[f64],
    across: &[f64],
    labels: &[usize],
    l: usize,
    n: usize,
    out: &mut [f64],
)
    requires { Items points.now across.now (length labels.now) × (length out.old ≡ length labels.now) × (length labels.now ≤ N) × (N ≤ 256) }
    ensures { out.new ≡ distances (cell_at points.now (length labels.now)) (length labels.now) (mean_over (cell_at points.now (length labels.now)) (numbers labels.now) (length labels.now) n l) }
{
    let mut mean = lists::buffer::<f64, N>(0.0);
    distances_with(points, across, labels, l, n, &mut mean[..labels.len()], out);
}

// The squared distance of each item to the mean of the n members of group l. Inner form: `across` is the transpose of `points`.
pub fn mean_distances(
    points: &[f64],
    across: &[f64],
    labels: &[usize],
    l: usize,
    n: usize,
    out: &mut [f64],
)
    requires { Items points.now across.now (length labels.now) × (length out.old ≡ length labels.now) }
    ensures { out.new ≡ distances (cell_at points.now (length labels.now)) (length labels.now) (mean_over (cell_at points.now (length labels.now)) (numbers labels.now) (length labels.now) n l) }
{
    if labels.len() <= 32 {
        distances_on::<32>(points, across, labels, l, n, out);
        return;
    }
    distances_on::<256>(points, across, labels, l, n, out);
}
