// k-means on the areas of a round's list of doubles: k-means++, then Lloyd's passes. Inner forms, for the rounds and the leaves.
#![tactic(auto)]

ghost use Rattle.std.specs.Prelude.{◌≡◌, ◌≤◌, ◌+◌, ◌*◌, length, take, drop};
ghost use Rattle.distance_columns.specs.Pair.{squared_at};
ghost use Rattle.distance_columns.specs.Columns.{points_at};
ghost use Rattle.draws.specs.Counts.{seeding_of};
ghost use Rattle.plusplus.specs.Seeding.{seeding, MaySeed, SeededBy};
ghost use Rattle.lloyd_table.specs.Area.{Held};
ghost use Rattle.kmeans.specs.Clustering.{kmeans_of};
ghost use Rattle.kmeans.specs.Steps.{ClusteredBy, LabelledBy, MayCluster, seed_given, seed_moved};
ghost use Rattle.plusplus_seeded.specs.Sources.{SuppliedBy, RngOf};

use draws::Stop;
use lloyd_pass::Ended;
use plusplus_seeded::Source;

// The place of the next draw, and whether the passes converged.
#[derive(Drop)]
pub struct Clustered {
    pub at: usize,
    pub ended: Ended,
}

// The source behind the draws, and whether the passes converged.
#[derive(Drop)]
pub struct Labelled {
    pub source: Source,
    pub ended: Ended,
}

// The points into the first area, and from them what k-means reads. Inner form. The fourth and the fifth area are left with
// anything.
pub fn prepare(points: &[f64], m: usize, area: &mut [f64])
    requires { (2 ≤ m) × (m ≤ 256) × (length points.now ≡ m * m) × (length area.old ≡ 5 * (m * m)) }
    ensures { Held area.new m × (take (m * m) area.new ≡ points.now) }
{
    let first = m * m;
    lists::copy(points, &mut area[..first]);
    let four = 4 * first;
    areas::squares_in(&mut area[..four], m);
}

// As many centres as the list holds, by the squared pair distances in the third area and the draws of the source. The weights are left with
// anything, and so are the centres where a draw was out of range.
fn seed_by_in(
    area: &[f64],
    m: usize,
    draws: &[u64],
    src: Source,
    centres: &mut [usize],
    weights: &mut [f64],
    rng: &mut [u32],
) -> Result<Source, Stop>
    requires { Held area.now m × MayCluster m (length centres.old) draws.now src × (length weights.old ≡ m) × RngOf src rng.old }
    ensures supplied_by { SuppliedBy (seeding (squared_at (points_at area.now m) m) m (length centres.old) src.at (seed_given (points_at area.now m) m (length centres.old) src draws.now))
        (seed_moved (points_at area.now m) m (length centres.old) src) result centres.new }
    ensures rng_of { RngOf (seed_moved (points_at area.now m) m (length centres.old) src) rng.new }
{
    let third = 2 * (m * m);
    let end = 3 * (m * m);
    plusplus_seeded::seed_by(&area[third..end], draws, src, centres, weights, rng)
}

// The same with the draws of the list from place `at` on. Inner form.
pub fn seed_in(
    area: &[f64],
    m: usize,
    draws: &[u64],
    at: usize,
    centres: &mut [usize],
    weights: &mut [f64],
) -> Result<usize, Stop>
    requires { Held area.now m × MaySeed m (length centres.old) draws.now at × (length weights.old ≡ m) }
    ensures { SeededBy (seeding (squared_at (points_at area.now m) m) m (length centres.old) at (drop at draws.now))
        (at + seeding_of (length centres.old)) result centres.new }
{
    let src = Source {
        at,
        seeded: false,
        seed: 0,
        taken: 0,
    };
    let mut none = lists::buffer::<u32, 72>(0);
    let next = seed_by_in(area, m, draws, src, centres, weights, &mut none)?;
    Ok(next.at)
}

// Centres, then labels. The labels are written once the draws have been taken.
fn cluster(
    area: &mut [f64],
    m: usize,
    draws: &[u64],
    src: Source,
    labels: &mut [usize],
    centres: &mut [usize],
    weights: &mut [f64],
    rng: &mut [u32],
) -> Result<Labelled, Stop>
    requires { Held area.old m × MayCluster m (length centres.old) draws.now src × (length weights.old ≡ m) × (length labels.old ≡ m) × RngOf src rng.old }
    ensures labelled_by { LabelledBy (kmeans_of (points_at area.old m) m (length centres.old) src.at (seed_given (points_at area.old m) m (length centres.old) src draws.now))
        (seed_moved (points_at area.old m) m (length centres.old) src) labels.old result labels.new }
    ensures area_unchanged { take (4 * (m * m)) area.new ≡ take (4 * (m * m)) area.old }
    ensures rng_of { RngOf (seed_moved (points_at area.old m) m (length centres.old) src) rng.new }
{
    let source = seed_by_in(area, m, draws, src, centres, weights, rng)?;
    let ended = lloyd::lloyd_in(area, m, centres, labels);
    Ok(Labelled { source, ended })
}

// The same, with lists of N places for the centres and the weights.
fn cluster_on<const N: usize>(
    area: &mut [f64],
    m: usize,
    k: usize,
    draws: &[u64],
    src: Source,
    labels: &mut [usize],
    rng: &mut [u32],
) -> Result<Labelled, Stop>
    requires { Held area.old m × MayCluster m k draws.now src × (length labels.old ≡ m) × RngOf src rng.old × (m ≤ N) × (N ≤ 256) }
    ensures labelled_by { LabelledBy (kmeans_of (points_at area.old m) m k src.at (seed_given (points_at area.old m) m k src draws.now)) (seed_moved (points_at area.old m) m k src) labels.old result labels.new }
    ensures area_unchanged { take (4 * (m * m)) area.new ≡ take (4 * (m * m)) area.old }
    ensures rng_of { RngOf (seed_moved (points_at area.old m) m k src) rng.new }
{
    let mut centres = lists::buffer::<usize, N>(0);
    let mut weights = lists::buffer::<f64, N>(0.0);
    cluster(
        area,
        m,
        draws,
        src,
        labels,
        &mut centres[..k],
        &mut weights[..m],
        rng,
    )
}

// The labels of the m items in k groups, by the draws of the source. Inner form. The fifth area, the table, is left with
// anything; a draw out of range leaves the labels as they were. Lists of 256 places take longer to make than a call for few items.
pub fn labels_by(
    area: &mut [f64],
    m: usize,
    k: usize,
    draws: &[u64],
    src: Source,
    labels: &mut [usize],
    rng: &mut [u32],
) -> Result<Labelled, Stop>
    requires { Held area.old m × MayCluster m k draws.now src × (length labels.old ≡ m) × RngOf src rng.old }
    ensures labelled_by { LabelledBy (kmeans_of (points_at area.old m) m k src.at (seed_given (points_at area.old m) m k src draws.now)) (seed_moved (points_at area.old m) m k src) labels.old result labels.new }
    ensures area_unchanged { take (4 * (m * m)) area.new ≡ take (4 * (m * m)) area.old }
    ensures rng_of { RngOf (seed_moved (points_at area.old m) m k src) rng.new }
{
    if m <= 32 {
        return cluster_on::<32>(area, m, k, draws, src, labels, rng);
    }
    cluster_on::<256>(area, m, k, draws, src, labels, rng)
}

// The same with the draws of the list from place `at` on.
pub fn labels_in(
    area: &mut [f64],
    m: usize,
    k: usize,
    draws: &[u64],
    at: usize,
    labels: &mut [usize],
) -> Result<Clustered, Stop>
    requires { Held area.old m × MaySeed m k draws.now at × (length labels.old ≡ m) }
    ensures clustered_by { ClusteredBy (kmeans_of (points_at area.old m) m k at (drop at draws.now)) (at + seeding_of k) labels.old result labels.new }
    ensures area_unchanged { take (4 * (m * m)) area.new ≡ take (4 * (m * m)) area.old }
{
    let src = Source {
        at,
        seeded: false,
        seed: 0,
        taken: 0,
    };
    let mut none = lists::buffer::<u32, 72>(0);
    let labelled = labels_by(area, m, k, draws, src, labels, &mut none)?;
    Ok(Clustered {
        at: labelled.source.at,
        ended: labelled.ended,
    })
}
