// What the harness alone calls, to compare and to time: the square root in its two forms, the k-means leaves, and the inner forms
// by which a round runs. The inner forms have preconditions, and nothing tests what they ask.
#![tactic(auto)]

ghost use Rattle.std.specs.Prelude.{◌≡◌, ℕ, ◌<◌, ◌≤◌, ◌+◌, ◌*◌, length, take, drop};
ghost use Rattle.sqrt.specs.Root.{root};
ghost use Rattle.kmeans_plus_plus.specs.Leaves.{plus_plus_leaf};
ghost use Rattle.kmeans_lloyd.specs.Leaves.{lloyd_leaf};
ghost use Rattle.kmeans_labels.specs.Leaves.{labels_leaf};
ghost use Rattle.lists.specs.Lists.{cells, numbers};
ghost use Rattle.stats.specs.Average.{most_values};
ghost use Rattle.tstat.specs.Tstat.{tstat_of};
ghost use Rattle.distance.specs.Distance.{Readable, dist_at};
ghost use Rattle.distance_columns.specs.Pair.{squared_at};
ghost use Rattle.distance_columns.specs.Columns.{points_at};
ghost use Rattle.areas.specs.Pairs.{pairs_area};
ghost use Rattle.draws.specs.Counts.{seeding_of};
ghost use Rattle.plusplus.specs.Seeding as seeds;
ghost use Rattle.plusplus.specs.Seeding.{seeding, MaySeed};
ghost use Rattle.lloyd_pass.specs.Passes.{lloyd_labels};
ghost use Rattle.lloyd_table.specs.Area.{Held, Centres};
ghost use Rattle.kmeans.specs.Clustering.{kmeans_of};
ghost use Rattle.kmeans.specs.Steps.{labels_after};
ghost use Rattle.silhouette_areas.specs.Scoring.{scores_of, Prepared};
ghost use Rattle.harness_exports.specs.Reported.{reported_of};
ghost use Rattle.harness_exports.specs.Next.{next_after};

#[unsafe(no_mangle)]
pub extern "C" fn onc_sqrt(x: f64) -> f64
    ensures { result ≡ root x }
{
    sqrt::sqrt(x)
}

#[unsafe(no_mangle)]
pub extern "C" fn onc_sqrt_by_digits(x: f64) -> f64
    ensures { result ≡ root x }
{
    sqrt::sqrt_by_digits(x)
}

#[unsafe(no_mangle)]
pub extern "C" fn onc_kmeans_plus_plus(
    points: &[f64],
    n: usize,
    k: usize,
    draws: &[u64],
    centres: &mut [usize],
    floats: &mut [f64],
    numbers: &mut [usize],
    answer: &mut [usize],
) -> usize
    ensures { record { number = result; answer = answer.new; out = centres.new; floats = floats.new; numbers = numbers.new }
        ≡ reported_of (length points.now) n (plus_plus_leaf points.now n k draws.now centres.old floats.old numbers.old) answer.old centres.old floats.old numbers.old }
{
    let refused = harness_reports::kmeans_refused(points.len(), n, answer.len());
    if refused != 0 {
        return refused;
    }
    let a = kmeans_plus_plus::kmeans_plus_plus(points, n, k, draws, centres, floats, numbers);
    harness_reports::report_kmeans(a, answer)
}

#[unsafe(no_mangle)]
pub extern "C" fn onc_lloyd(
    points: &[f64],
    n: usize,
    centres: &[usize],
    labels: &mut [usize],
    floats: &mut [f64],
    numbers: &mut [usize],
    answer: &mut [usize],
) -> usize
    ensures { record { number = result; answer = answer.new; out = labels.new; floats = floats.new; numbers = numbers.new }
        ≡ reported_of (length points.now) n (lloyd_leaf points.now n centres.now labels.old floats.old numbers.old) answer.old labels.old floats.old numbers.old }
{
    let refused = harness_reports::kmeans_refused(points.len(), n, answer.len());
    if refused != 0 {
        return refused;
    }
    let a = kmeans_lloyd::lloyd(points, n, centres, labels, floats, numbers);
    harness_reports::report_kmeans(a, answer)
}

#[unsafe(no_mangle)]
pub extern "C" fn onc_kmeans_labels(
    points: &[f64],
    n: usize,
    k: usize,
    draws: &[u64],
    labels: &mut [usize],
    floats: &mut [f64],
    numbers: &mut [usize],
    answer: &mut [usize],
) -> usize
    ensures { record { number = result; answer = answer.new; out = labels.new; floats = floats.new; numbers = numbers.new }
        ≡ reported_of (length points.now) n (labels_leaf points.now n k draws.now labels.old floats.old numbers.old) answer.old labels.old floats.old numbers.old }
{
    let refused = harness_reports::kmeans_refused(points.len(), n, answer.len());
    if refused != 0 {
        return refused;
    }
    let a = kmeans_labels::kmeans_labels(points, n, k, draws, labels, floats, numbers);
    harness_reports::report_kmeans(a, answer)
}

// What k-means reads of the points, worked out once for every k. Inner form. The fourth and the fifth area are left with anything.
#[unsafe(no_mangle)]
pub extern "C" fn onc_prepare(points: &[f64], m: usize, area: &mut [f64])
    requires { (2 ≤ m) × (m ≤ 256) × (length points.now ≡ m * m) × (length area.old ≡ 5 * (m * m)) }
    ensures { Held area.new m × (take (m * m) area.new ≡ points.now) }
{
    kmeans::prepare(points, m, area);
}

// The labels of the items in k groups; the place of the next draw, and 0 where a draw was out of range. Inner form. The fifth area is
// left with anything.
#[unsafe(no_mangle)]
pub extern "C" fn onc_labels_in(
    area: &mut [f64],
    m: usize,
    k: usize,
    draws: &[u64],
    at: usize,
    labels: &mut [usize],
) -> usize
    requires { Held area.old m × MaySeed m k draws.now at × (length labels.old ≡ m) }
    ensures { (result ≡ next_after (at + seeding_of k) (kmeans_of (points_at area.old m) m k at (drop at draws.now)))
        × (labels.new ≡ labels_after (kmeans_of (points_at area.old m) m k at (drop at draws.now)) labels.old)
        × (take (4 * (m * m)) area.new ≡ take (4 * (m * m)) area.old) }
{
    match kmeans::labels_in(area, m, k, draws, at, labels) {
        Ok(clustered) => clustered.at,
        Err(_) => 0,
    }
}

// The four areas of a round, from the rows of a book. Inner form.
#[unsafe(no_mangle)]
pub extern "C" fn onc_book_pairs(book: &[f64], n: usize, rows: &[usize], area: &mut [f64])
    requires { Readable book.now n rows.now × (0 < length rows.now) × (length area.old ≡ 4 * (length rows.now * length rows.now)) }
    ensures { area.new ≡ pairs_area (dist_at book.now n rows.now) (length rows.now) }
{
    areas::book_pairs(book, n, rows, area);
}

// As many centres as the list holds; the place of the next draw, and 0 where a draw was out of range. Inner form. The weights are left
// with anything, and so are the centres where it gives 0.
#[unsafe(no_mangle)]
pub extern "C" fn onc_seed_in(
    area: &[f64],
    m: usize,
    draws: &[u64],
    at: usize,
    centres: &mut [usize],
    weights: &mut [f64],
) -> usize
    requires { Held area.now m × MaySeed m (length centres.old) draws.now at × (length weights.old ≡ m) }
    ensures { (result ≡ next_after (at + seeding_of (length centres.old)) (seeding (squared_at (points_at area.now m) m) m (length centres.old) at (drop at draws.now)))
        × seeds.CentresAfter (seeding (squared_at (points_at area.now m) m) m (length centres.old) at (drop at draws.now)) centres.new }
{
    kmeans::seed_in(area, m, draws, at, centres, weights).unwrap_or(0)
}

// The labels by Lloyd's passes from the centres. Inner form. The fifth area is left with anything.
#[unsafe(no_mangle)]
pub extern "C" fn onc_lloyd_in(area: &mut [f64], m: usize, centres: &[usize], labels: &mut [usize])
    requires { Held area.old m × Centres centres.now m × (length labels.old ≡ m) }
    ensures { (labels.new ≡ lloyd_labels (points_at area.old m) m (length centres.now) (numbers centres.now))
        × (take (4 * (m * m)) area.new ≡ take (4 * (m * m)) area.old) }
{
    lloyd::lloyd_in(area, m, centres, labels);
}

// The score of each item, where the labels are below k. Inner form.
#[unsafe(no_mangle)]
pub extern "C" fn onc_scores_in(
    area: &[f64],
    m: usize,
    labels: &[usize],
    k: usize,
    scores: &mut [f64],
)
    requires { Prepared area.now m × (length labels.now ≡ m) × (length scores.old ≡ m) × (k ≤ m) × ((i : ℕ) → i < m → numbers labels.now i < k) }
    ensures { scores.new ≡ scores_of (points_at area.now m) m (numbers labels.now) }
{
    silhouette_areas::scores_in(area, m, labels, k, scores);
}

// The t-statistic of at most 65,536 scores. Inner form: 4 is asked by its callers.
#[unsafe(no_mangle)]
pub extern "C" fn onc_tstat_of(scores: &[f64]) -> f64
    requires { length scores.now ≤ most_values }
    ensures { result ≡ tstat_of (cells scores.now) (length scores.now) }
{
    tstat::tstat_value(scores)
}
