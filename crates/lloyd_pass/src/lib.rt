// The two steps of one of Lloyd's passes, in the list of crate lloyd_table: the nearest group of each item, and the table for the
// next centroids. The table is kept from pass to pass: only rows of groups whose members changed are worked out anew.
// Inner forms, all functions here.
#![tactic(auto)]

ghost use Rattle.std.specs.Prelude.{◌≡◌, ℕ, ◌<◌, ◌≤◌, ◌*◌, length, take, not, ◌&&◌, eqb};
ghost use Rattle.lists.specs.Lists.{listed, cells, numbers};
ghost use Rattle.distance_columns.specs.Columns.{points_at};
ghost use Rattle.lloyd_nearest.specs.Nearest.{nearest_to};
ghost use Rattle.lloyd_table.specs.Area.{Held, table_row, Table, Kept};
ghost use Rattle.lloyd_pass.specs.Passes.{moved};

// The passes converged, or were cut after 300.
#[derive(Drop)]
pub enum Ended {
    Converged,
    PassLimit,
}

// Whether a group of n members keeps its row: it has members, and no item joined or left it.
fn keeps_row(n: usize, moved: bool) -> bool
    ensures { result ≡ not (eqb n 0) && not moved }
{
    n != 0 && !moved
}

// The table for the next k centroids. The row of a group whose members are the same is kept; `sizes` and `marks` are lists to work in.
fn refresh_rows(
    area: &mut [f64],
    old: &[usize],
    labels: &[usize],
    k: usize,
    dists: &mut [f64],
    sums: &mut [f64],
    sizes: &mut [usize],
    marks: &mut [bool],
)
    requires held { Held area.old (length labels.now) }
    requires len { (length old.now ≡ length labels.now) × (k ≤ length labels.now) × (length dists.old ≡ length labels.now) × (length sums.old ≡ length labels.now)
        × (length sizes.old ≡ length labels.now) × (length marks.old ≡ length labels.now) }
    requires by_index { (l : ℕ) → l < k → Kept (points_at area.old (length labels.now)) area.old old.now labels.now (length labels.now) l }
    ensures table { Table area.new (length labels.now) k (points_at area.old (length labels.now)) (moved (points_at area.old (length labels.now)) (numbers labels.now) (cells dists.old) (length labels.now)) }
    ensures area_unchanged { take (4 * (length labels.now * length labels.now)) area.new ≡ take (4 * (length labels.now * length labels.now)) area.old }
{
    lloyd_members::group_sizes(labels, sizes);
    lloyd_members::mark_moved(old, labels, marks);
    for l in 0..k {
        let n = sizes[l];
        if keeps_row(n, marks[l]) {
            continue;
        }
        lloyd_table::refresh_group(area, labels, l, n, dists, sums);
    }
}

// The same, with sizes and marks of its own, N of each.
fn refresh_on<const N: usize>(
    area: &mut [f64],
    old: &[usize],
    labels: &[usize],
    k: usize,
    dists: &mut [f64],
    sums: &mut [f64],
)
    requires held { Held area.old (length labels.now) }
    requires len { (length old.now ≡ length labels.now) × (k ≤ length labels.now) × (length dists.old ≡ length labels.now) × (length sums.old ≡ length labels.now)
        × (length labels.now ≤ N) × (N ≤ 256) }
    requires by_index { (l : ℕ) → l < k → Kept (points_at area.old (length labels.now)) area.old old.now labels.now (length labels.now) l }
    ensures table { Table area.new (length labels.now) k (points_at area.old (length labels.now)) (moved (points_at area.old (length labels.now)) (numbers labels.now) (cells dists.old) (length labels.now)) }
    ensures area_unchanged { take (4 * (length labels.now * length labels.now)) area.new ≡ take (4 * (length labels.now * length labels.now)) area.old }
{
    let m = labels.len();
    let mut sizes = lists::buffer::<usize, N>(0);
    let mut marks = lists::buffer::<bool, N>(false);
    refresh_rows(
        area,
        old,
        labels,
        k,
        dists,
        sums,
        &mut sizes[..m],
        &mut marks[..m],
    );
}

// The same, with lists of 32 places for at most 32 items: lists of 256 take longer to make than a pass over few items. `dists`, `sums` and the rows of the table behind the k-th are left with anything.
pub fn refresh(
    area: &mut [f64],
    old: &[usize],
    labels: &[usize],
    k: usize,
    dists: &mut [f64],
    sums: &mut [f64],
)
    requires held { Held area.old (length labels.now) }
    requires len { (length old.now ≡ length labels.now) × (k ≤ length labels.now) × (length dists.old ≡ length labels.now) × (length sums.old ≡ length labels.now) }
    requires by_index { (l : ℕ) → l < k → Kept (points_at area.old (length labels.now)) area.old old.now labels.now (length labels.now) l }
    ensures table { Table area.new (length labels.now) k (points_at area.old (length labels.now)) (moved (points_at area.old (length labels.now)) (numbers labels.now) (cells dists.old) (length labels.now)) }
    ensures area_unchanged { take (4 * (length labels.now * length labels.now)) area.new ≡ take (4 * (length labels.now * length labels.now)) area.old }
{
    if labels.len() <= 32 {
        refresh_on::<32>(area, old, labels, k, dists, sums);
        return;
    }
    refresh_on::<256>(area, old, labels, k, dists, sums);
}

// The nearest group of each item, and its distance, by the table.
pub fn assign_in(area: &[f64], k: usize, dists: &mut [f64], labels: &mut [usize])
    requires { (k ≤ length labels.old) × (length labels.old ≤ 256) × (length area.now ≡ 5 * (length labels.old * length labels.old)) × (length dists.old ≡ length labels.old) }
    ensures dists_after { dists.new ≡ listed (λ i. (nearest_to (λ l. cells (table_row area.now (length labels.old) l) i) k).value) (length labels.old) }
    ensures labels_after { labels.new ≡ listed (λ i. (nearest_to (λ l. cells (table_row area.now (length labels.old) l) i) k).at) (length labels.old) }
{
    let m = labels.len();
    let at = 4 * (m * m);
    let end = 5 * (m * m);
    lloyd_nearest::assign(&area[at..end], k, dists, labels);
}
