// The silhouettes of the items of a round, from the pair distances in the fourth area. Inner form, for the candidates and for a partition
// that is scored afresh.
#![tactic(auto)]

ghost use Rattle.std.specs.Prelude.{◌≡◌, ℕ, ◌≤◌, ◌<◌, ◌*◌, length};
ghost use Rattle.lists.specs.Lists.{numbers};
ghost use Rattle.distance_columns.specs.Columns.{points_at};
ghost use Rattle.silhouette_areas.specs.Scoring.{scores_of, Prepared};

// The score of each item, where the labels are below k. `sums` and `own` are lists to work in. Inner form, as the next.
fn scores_with(
    area: &[f64],
    m: usize,
    labels: &[usize],
    k: usize,
    scores: &mut [f64],
    sums: &mut [f64],
    own: &mut [f64],
)
    requires prepared { Prepared area.now m × (length labels.now ≡ m) × (length scores.old ≡ m) × (k ≤ m) × ((i : ℕ) → i < m → numbers labels.now i < k) }
    requires sums_len { (length sums.old ≡ m) × (length own.old ≡ m) }
    ensures scored { scores.new ≡ scores_of (points_at area.now m) m (numbers labels.now) }
{
    let from = 3 * (m * m);
    let end = 4 * (m * m);
    silhouette_scores::scores_by_label(&area[from..end], labels, k, scores, sums, own);
}

// The same, with lists of its own to work in, N places each.
fn scores_on<const N: usize>(area: &[f64], m: usize, labels: &[usize], k: usize, scores: &mut [f64])
    requires prepared { Prepared area.now m × (length labels.now ≡ m) × (length scores.old ≡ m) × (k ≤ m) × ((i : ℕ) → i < m → numbers labels.now i < k) }
    requires room { (m ≤ N) × (N ≤ 256) }
    ensures scored { scores.new ≡ scores_of (points_at area.now m) m (numbers labels.now) }
{
    let mut sums = lists::buffer::<f64, N>(0.0);
    let mut own = lists::buffer::<f64, N>(0.0);
    scores_with(area, m, labels, k, scores, &mut sums[..m], &mut own[..m]);
}

// The score of each item, where the labels are below k. Inner form. Lists of 256 places take longer to make than the scores of few items, so at most
// 32 items have lists of 32.
pub fn scores_in(area: &[f64], m: usize, labels: &[usize], k: usize, scores: &mut [f64])
    requires { Prepared area.now m × (length labels.now ≡ m) × (length scores.old ≡ m) × (k ≤ m) × ((i : ℕ) → i < m → numbers labels.now i < k) }
    ensures { scores.new ≡ scores_of (points_at area.now m) m (numbers labels.now) }
{
    if m <= 32 {
        scores_on::<32>(area, m, labels, k, scores);
        return;
    }
    scores_on::<256>(area, m, labels, k, scores);
}
