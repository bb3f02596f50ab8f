// The best of the candidates of a round: repeats outside, the number of groups inside. Inner forms, for `cluster_kmeans_base`.
#![tactic(auto)]

ghost use Rattle.std.specs.Prelude.{◌≡◌, ◌≤◌, ◌*◌, length, take};
ghost use Rattle.distance_columns.specs.Columns.{points_at};
ghost use Rattle.draws.specs.Counts.{tries, count_of};
ghost use Rattle.plusplus_seeded.specs.Sources.{Supplies, RngOf};
ghost use Rattle.kmeans.specs.Steps.{MayCluster, seed_given, seed_moved};
ghost use Rattle.silhouette_areas.specs.Scoring.{Prepared};
ghost use Rattle.candidates.specs.Candidates.{candidate_from, tries_from, best_of};
ghost use Rattle.candidates.specs.Made.{tries_given, repeat_moved, repeats_given, repeats_moved};
ghost use Rattle.candidates.specs.Steps.{TriedBy, SearchedBy, RngBehind, Enough, Lists, best_from};

use choice::Kept;
use draws::Stop;
use plusplus_seeded::Source;

// The source behind the draws, and the best candidate so far, if there is one.
#[derive(Drop)]
pub struct Searched {
    pub source: Source,
    pub kept: Option<Kept>,
}

// The source behind the draws, the t-stat and the plain mean of a candidate.
#[derive(Drop)]
struct Tried {
    source: Source,
    stat: f64,
    mean: f64,
}

// The candidate with k groups, by the draws of the source: its labels and its scores in the lent lists. The fifth area holds
// anything afterwards.
fn candidate(
    area: &mut [f64],
    m: usize,
    k: usize,
    draws: &[u64],
    src: Source,
    labels: &mut [usize],
    scores: &mut [f64],
    rng: &mut [u32],
) -> Result<Tried, Stop>
    requires { Prepared area.old m × MayCluster m k draws.now src × (length labels.old ≡ m) × (length scores.old ≡ m) × RngOf src rng.old }
    ensures tried_by { TriedBy (candidate_from (points_at area.old m) m k src.at (seed_given (points_at area.old m) m k src draws.now)) (seed_moved (points_at area.old m) m k src) result labels.new scores.new }
    ensures area_unchanged { take (4 * (m * m)) area.new ≡ take (4 * (m * m)) area.old }
    ensures rng_of { RngOf (seed_moved (points_at area.old m) m k src) rng.new }
{
    let labelled = kmeans::labels_by(area, m, k, draws, src, labels, rng)?;
    silhouette_areas::scores_in(area, m, labels, k, scores);
    let stat = tstat::tstat_value(scores);
    let mean = tstat::mean_of_value(scores);
    Ok(Tried {
        source: labelled.source,
        stat,
        mean,
    })
}

// The candidate with k groups against what is kept: where it replaces that, its labels and scores are copied to `labels` and `scores`.
fn try_k(
    area: &mut [f64],
    m: usize,
    k: usize,
    draws: &[u64],
    src: Source,
    kept: Option<Kept>,
    labels: &mut [usize],
    scores: &mut [f64],
    new_labels: &mut [usize],
    new_scores: &mut [f64],
    rng: &mut [u32],
) -> Result<Searched, Stop>
    requires { Prepared area.old m × MayCluster m k draws.now src × Lists m labels.old scores.old new_labels.old new_scores.old × RngOf src rng.old }
    ensures searched_by { SearchedBy (tries_from (points_at area.old m) m k 1 (best_from kept labels.old scores.old) src.at (seed_given (points_at area.old m) m k src draws.now))
        (seed_moved (points_at area.old m) m k src) result labels.new scores.new }
    ensures area_unchanged { take (4 * (m * m)) area.new ≡ take (4 * (m * m)) area.old }
    ensures rng_of { RngOf (seed_moved (points_at area.old m) m k src) rng.new }
{
    let tried = candidate(area, m, k, draws, src, new_labels, new_scores, rng)?;
    let stat = tried.stat;
    let mean = tried.mean;
    let source = tried.source;
    if !choice::replaces(stat, mean, kept) {
        return Ok(Searched { source, kept });
    }
    lists::copy(new_labels, labels);
    lists::copy(new_scores, scores);
    Ok(Searched {
        source,
        kept: Some(Kept { stat, mean }),
    })
}

// One repeat: each number of groups, from 2 on.
fn each_k(
    area: &mut [f64],
    m: usize,
    draws: &[u64],
    from: Source,
    kept: Option<Kept>,
    labels: &mut [usize],
    scores: &mut [f64],
    new_labels: &mut [usize],
    new_scores: &mut [f64],
    rng: &mut [u32],
) -> Result<Searched, Stop>
    requires { Prepared area.old m × (2 ≤ m) × Supplies from draws.now (count_of m) × Lists m labels.old scores.old new_labels.old new_scores.old × RngOf from rng.old }
    ensures searched_by { SearchedBy (tries_from (points_at area.old m) m 2 (tries m) (best_from kept labels.old scores.old) from.at (tries_given (points_at area.old m) m 2 (tries m) from draws.now))
        (repeat_moved (points_at area.old m) m from) result labels.new scores.new }
    ensures area_unchanged { take (4 * (m * m)) area.new ≡ take (4 * (m * m)) area.old }
    ensures rng_behind { RngBehind result rng.new }
{
    let end = draws::groups_end(m);
    let mut here = from;
    let mut best = kept;
    for k in 2..end {
        let found = try_k(
            area, m, k, draws, here, best, labels, scores, new_labels, new_scores, rng,
        )?;
        here = found.source;
        best = found.kept;
    }
    Ok(Searched {
        source: here,
        kept: best,
    })
}

// All repeats, one after the other.
fn each_repeat(
    area: &mut [f64],
    m: usize,
    repeat: usize,
    draws: &[u64],
    from: Source,
    labels: &mut [usize],
    scores: &mut [f64],
    new_labels: &mut [usize],
    new_scores: &mut [f64],
    rng: &mut [u32],
) -> Result<Searched, Stop>
    requires { Prepared area.old m × Enough m repeat draws.now from × Lists m labels.old scores.old new_labels.old new_scores.old × RngOf from rng.old }
    ensures { SearchedBy (best_of (points_at area.old m) m repeat from.at (repeats_given (points_at area.old m) m repeat from draws.now)) (repeats_moved (points_at area.old m) m repeat from) result labels.new scores.new }
{
    let mut here = from;
    let mut best: Option<Kept> = None;
    for t in 0..repeat {
        let found = each_k(
            area, m, draws, here, best, labels, scores, new_labels, new_scores, rng,
        )?;
        here = found.source;
        best = found.kept;
    }
    Ok(Searched {
        source: here,
        kept: best,
    })
}

// The best candidate of all repeats, by the draws of the source: its labels and its scores in the lent lists, where there is one.
// Inner form. The areas hold anything afterwards, and so do the lists where there is none or a draw is out of range.
pub fn best_candidate(
    area: &mut [f64],
    m: usize,
    repeat: usize,
    draws: &[u64],
    src: Source,
    labels: &mut [usize],
    scores: &mut [f64],
) -> Result<Searched, Stop>
    requires { Prepared area.old m × Enough m repeat draws.now src × (length labels.old ≡ m) × (length scores.old ≡ m) }
    ensures { SearchedBy (best_of (points_at area.old m) m repeat src.at (repeats_given (points_at area.old m) m repeat src draws.now)) (repeats_moved (points_at area.old m) m repeat src) result labels.new scores.new }
{
    let mut new_labels = lists::buffer::<usize, 256>(0);
    let mut new_scores = lists::buffer::<f64, 256>(0.0);
    let mut rng = lists::buffer::<u32, 72>(0);
    plusplus_seeded::start_rng(src.seeded, src.seed, src.taken, &mut rng);
    each_repeat(
        area,
        m,
        repeat,
        draws,
        src,
        labels,
        scores,
        &mut new_labels[..m],
        &mut new_scores[..m],
        &mut rng,
    )
}
