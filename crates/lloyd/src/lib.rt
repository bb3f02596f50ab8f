// Lloyd's passes in one list of five areas of m by m cells: the points, their transpose, the squared pair distances, one
// that is not used here, and the table, whose row l has the squared distances of all items to centroid l. The table is
// kept from pass to pass: only rows of groups whose members changed are worked out anew.
// Inner forms, all functions here.
#![tactic(auto)]

ghost use Rattle.std.specs.Prelude.{◌≡◌, ◌≤◌, ◌*◌, length, take};
ghost use Rattle.distance_columns.specs.Columns.{points_at};
ghost use Rattle.lloyd_table.specs.Area.{Held, Centres};
ghost use Rattle.lloyd.specs.Result.{After, LloydResult};

use lloyd_pass::Ended;

// Passes until one changes no label, at most 300.
fn run(
    area: &mut [f64],
    centres: &[usize],
    labels: &mut [usize],
    fresh: &mut [usize],
    dists: &mut [f64],
    sums: &mut [f64],
) -> Ended
    requires held { Held area.old (length labels.old) × Centres centres.now (length labels.old) }
    requires fresh_len { (length fresh.old ≡ length labels.old) × (length dists.old ≡ length labels.old) × (length sums.old ≡ length labels.old) }
    requires after { After (points_at area.old (length labels.old)) (length labels.old) centres.now 0 labels.old area.old }
    ensures lloyd_result { LloydResult (points_at area.old (length labels.old)) (length labels.old) centres.now result labels.new }
    ensures area_unchanged { take (4 * (length labels.old * length labels.old)) area.new ≡ take (4 * (length labels.old * length labels.old)) area.old }
{
    let k = centres.len();
    for t in 0..300usize {
        lloyd_pass::assign_in(area, k, dists, fresh);
        if lloyd_nearest::same_labels(labels, fresh) {
            return Ended::Converged;
        }
        lloyd_pass::refresh(area, labels, fresh, k, dists, sums);
        lists::copy(fresh, labels);
    }
    Ended::PassLimit
}

// The groups of the m items, from the items `centres` as first centroids, by the lists that it is lent to work in.
fn lloyd_with(
    area: &mut [f64],
    m: usize,
    centres: &[usize],
    labels: &mut [usize],
    fresh: &mut [usize],
    dists: &mut [f64],
    sums: &mut [f64],
) -> Ended
    requires held { Held area.old m }
    requires centres { Centres centres.now m × (length labels.old ≡ m) }
    requires fresh_len { (length fresh.old ≡ m) × (length dists.old ≡ m) × (length sums.old ≡ m) }
    ensures lloyd_result { LloydResult (points_at area.old m) m centres.now result labels.new }
    ensures area_unchanged { take (4 * (m * m)) area.new ≡ take (4 * (m * m)) area.old }
{
    lloyd_table::first_table(area, m, centres);
    labels.fill(centres.len());
    run(area, centres, labels, fresh, dists, sums)
}

// The same, with lists of its own to work in, N places each.
fn lloyd_on<const N: usize>(
    area: &mut [f64],
    m: usize,
    centres: &[usize],
    labels: &mut [usize],
) -> Ended
    requires held { Held area.old m }
    requires centres { Centres centres.now m × (length labels.old ≡ m) }
    requires room { (m ≤ N) × (N ≤ 256) }
    ensures lloyd_result { LloydResult (points_at area.old m) m centres.now result labels.new }
    ensures area_unchanged { take (4 * (m * m)) area.new ≡ take (4 * (m * m)) area.old }
{
    let mut fresh = lists::buffer::<usize, N>(0);
    let mut dists = lists::buffer::<f64, N>(0.0);
    let mut sums = lists::buffer::<f64, N>(0.0);
    lloyd_with(
        area,
        m,
        centres,
        labels,
        &mut fresh[..m],
        &mut dists[..m],
        &mut sums[..m],
    )
}

// The groups of the m items, from the items `centres` as first centroids. The pass that changes no label ends it; after 300 passes it is cut.
// Inner form, for the rounds. The table holds anything, before the call and after it. Lists of 256 places take longer to make than the passes over few
// items, so at most 32 items have lists of 32.
pub fn lloyd_in(area: &mut [f64], m: usize, centres: &[usize], labels: &mut [usize]) -> Ended
    requires held { Held area.old m }
    requires centres { Centres centres.now m × (length labels.old ≡ m) }
    ensures lloyd_result { LloydResult (points_at area.old m) m centres.now result labels.new }
    ensures area_unchanged { take (4 * (m * m)) area.new ≡ take (4 * (m * m)) area.old }
{
    if m <= 32 {
        return lloyd_on::<32>(area, m, centres, labels);
    }
    lloyd_on::<256>(area, m, centres, labels)
}
