// Rows of the table that Lloyd's passes keep, in one list of five areas of m by m cells: the points, their transpose, the
// squared pair distances, one that is not used here, and the table, whose row l has the squared distances of all items to
// centroid l: the mean of the members of group l, the item that it takes if it is empty, or the item that it starts from. Inner forms, all functions
// here.
#![tactic(auto)]

ghost use Rattle.std.specs.Prelude.{◌≡◌, ℕ, ◌<◌, ◌*◌, length, take, set, true};
ghost use Rattle.std.specs.Float.{inf};
ghost use Rattle.lists.specs.Lists.{numbers};
ghost use Rattle.lists.specs.Sums.{group_size};
ghost use Rattle.distance_columns.specs.Columns.{points_at};
ghost use Rattle.lloyd_nearest.specs.Nearest.{farthest_of};
ghost use Rattle.lloyd_mean.specs.Groups.{mean_over, distances};
ghost use Rattle.lloyd_table.specs.Area.{Held, Centres, table_row, with_row, Refreshed};

// The squared pair distances of item j become row l of the table.
fn copy_row(area: &mut [f64], m: usize, j: usize, l: usize)
    requires { Held area.old m × (j < m) × (l < m) }
    ensures { area.new ≡ with_row area.old m l (distances (points_at area.old m) m (points_at area.old m j)) }
{
    let square = m * m;
    lists::gather(area, 2 * square + j * m, 1, 4 * square + l * m, m);
}

// The farthest item is taken, and its pair distances become row l of the table.
fn take_farthest(area: &mut [f64], m: usize, l: usize, dists: &mut [f64])
    requires { Held area.old m × (l < m) × (length dists.old ≡ m) }
    ensures dists_after { dists.new ≡ set dists.old (farthest_of dists.old) (inf true) }
    ensures area_after { area.new ≡ with_row area.old m l (distances (points_at area.old m) m (points_at area.old m (farthest_of dists.old))) }
{
    let far = lloyd_nearest::farthest(dists);
    dists[far] = -lists::infinity();
    copy_row(area, m, far, l);
}

// The squared distances of all items to the mean of the n members of group l.
fn distances_to_mean(area: &[f64], labels: &[usize], l: usize, n: usize, sums: &mut [f64])
    requires { Held area.now (length labels.now) × (length sums.old ≡ length labels.now) }
    ensures { sums.new ≡ distances (points_at area.now (length labels.now)) (length labels.now) (mean_over (points_at area.now (length labels.now)) (numbers labels.now) (length labels.now) n l) }
{
    let m = labels.len();
    let second = m * m;
    let third = second + second;
    lloyd_mean::mean_distances(&area[..second], &area[second..third], labels, l, n, sums);
}

// The same, in row l of the table: worked out in `sums`, since the list is read meanwhile.
fn set_mean(area: &mut [f64], labels: &[usize], l: usize, n: usize, sums: &mut [f64])
    requires { Held area.old (length labels.now) × (l < length labels.now) × (length sums.old ≡ length labels.now) }
    ensures { area.new ≡ with_row area.old (length labels.now) l (distances (points_at area.old (length labels.now)) (length labels.now) (mean_over (points_at area.old (length labels.now)) (numbers labels.now) (length labels.now) n l)) }
{
    distances_to_mean(area, labels, l, n, sums);
    let m = labels.len();
    let at = 4 * (m * m) + l * m;
    let end = at + m;
    lists::copy(sums, &mut area[at..end]);
}

// Row l of the table for the next centroids, n being the size of group l. An empty group takes the farthest item, and one with a single member
// has that item's pair distances. `sums` is left with anything.
pub fn refresh_group(
    area: &mut [f64],
    labels: &[usize],
    l: usize,
    n: usize,
    dists: &mut [f64],
    sums: &mut [f64],
)
    requires held { Held area.old (length labels.now) }
    requires l_in_bounds { (l < length labels.now) × (length dists.old ≡ length labels.now) × (length sums.old ≡ length labels.now) × (n ≡ group_size (numbers labels.now) (length labels.now) l) }
    ensures { Refreshed (points_at area.old (length labels.now)) labels.now (length labels.now) l dists.old area.old dists.new area.new }
{
    if n == 0 {
        take_farthest(area, labels.len(), l, dists);
        return;
    }
    if n == 1 {
        let j = lloyd_members::first_member(labels, l);
        copy_row(area, labels.len(), j, l);
        return;
    }
    set_mean(area, labels, l, n, sums);
}

// The table for the first centroids, which are items: their pair distances. Rows behind the last centroid's are left with anything.
pub fn first_table(area: &mut [f64], m: usize, centres: &[usize])
    requires { Held area.old m × Centres centres.now m }
    ensures by_index { (l : ℕ) → l < length centres.now → table_row area.new m l ≡ distances (points_at area.old m) m (points_at area.old m (numbers centres.now l)) }
    ensures area_unchanged { take (4 * (m * m)) area.new ≡ take (4 * (m * m)) area.old }
{
    for (l, centre) in centres.iter().enumerate() {
        copy_row(area, m, *centre, l);
    }
}
