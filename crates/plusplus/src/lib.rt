// k-means++ seeding on a table of squared distances, with the draws in a lent list.
#![tactic(auto)]

ghost use Rattle.std.specs.Prelude.{◌≡◌, ◌<◌, ◌≤◌, ◌+◌, ◌-◌, ◌*◌, length, take, drop};
ghost use Rattle.lists.specs.Lists.{cells, listed};
ghost use Rattle.draws.specs.Counts.{trials_of, seeding_of};
ghost use Rattle.lists.specs.Sums.{sum_to};
ghost use Rattle.plusplus_pick.specs.Potentials as spec;
ghost use Rattle.plusplus_pick.specs.Potentials.{RunningSums};
ghost use Rattle.plusplus_trials.specs.Trials.{table, next_of, tried_of, Weighed};
ghost use Rattle.plusplus.specs.Seeding.{centres_of, seeding, Weights, Ready, SeededBy};

use draws::Stop;
use plusplus_pick::Trial;

// The weights with the item of the row as a centre too.
fn keep_lesser(weights: &mut [f64], squares: &[f64])
    requires { length squares.now ≡ length weights.old }
    ensures { weights.new ≡ listed (λ i. spec.lesser_number (cells weights.old i) (cells squares.now i)) (length weights.old) }
{
    for (i, s) in squares.iter().enumerate() {
        weights[i] = plusplus_pick::lesser_number(weights[i], *s);
    }
}

// The best trial's pick becomes a centre, by the running weights and their total. Inner form.
pub fn centre_by_sums(
    squares: &[f64],
    weights: &mut [f64],
    sums: &[f64],
    total: f64,
    draws: &[u64],
    at: usize,
    count: usize,
) -> Result<Trial, Stop>
    requires weighed { Weighed squares.now weights.old × RunningSums sums.now weights.old × (total ≡ sum_to (cells weights.old) (length weights.old)) }
    requires le_count { (2 ≤ count) × (at + count ≤ length draws.now) }
    ensures value { result ≡ tried_of (next_of (table squares.now (length weights.old)) (length weights.old) count weights.old at (drop at draws.now)) }
    ensures weights { Weights (table squares.now (length weights.old)) (length weights.old) weights.old
        (next_of (table squares.now (length weights.old)) (length weights.old) count weights.old at (drop at draws.now)) weights.new }
{
    let m = weights.len();
    let b = plusplus_trials::best_trial(squares, weights, sums, total, draws, at, count)?;
    keep_lesser(weights, lists::row_of(squares, m, b.pick));
    Ok(b)
}

// The best trial's pick becomes a centre. `sums` holds anything, before the call and after it.
fn next_centre(
    squares: &[f64],
    weights: &mut [f64],
    draws: &[u64],
    at: usize,
    count: usize,
    sums: &mut [f64],
) -> Result<Trial, Stop>
    requires weighed { Weighed squares.now weights.old }
    requires le_count { (2 ≤ count) × (at + count ≤ length draws.now) × (length sums.old ≡ length weights.old) }
    ensures value { result ≡ tried_of (next_of (table squares.now (length weights.old)) (length weights.old) count weights.old at (drop at draws.now)) }
    ensures weights { Weights (table squares.now (length weights.old)) (length weights.old) weights.old
        (next_of (table squares.now (length weights.old)) (length weights.old) count weights.old at (drop at draws.now)) weights.new }
{
    let total = plusplus_pick::sum_weights(weights, sums);
    centre_by_sums(squares, weights, sums, total, draws, at, count)
}

// The centres behind the first, with the draws from place `from` on. The weights are those with the first as centre; `sums` is a list to work in.
fn more_centres(
    squares: &[f64],
    draws: &[u64],
    from: usize,
    centres: &mut [usize],
    weights: &mut [f64],
    sums: &mut [f64],
) -> Result<usize, Stop>
    requires weighed { Weighed squares.now weights.old × (length sums.old ≡ length weights.old) }
    requires centres_nonzero { (0 < length centres.old) × (length centres.old ≤ 256) × (from + (length centres.old - 1) * trials_of (length centres.old) ≤ length draws.now) }
    ensures { SeededBy (centres_of (table squares.now (length weights.old)) (length weights.old) (trials_of (length centres.old))
        (length centres.old - 1) weights.old (take 1 centres.old) from (drop from draws.now))
        (from + (length centres.old - 1) * trials_of (length centres.old)) result centres.new }
{
    let k = centres.len();
    let count = draws::trials(k);
    let mut at = from;
    for j in 1..k {
        let b = next_centre(squares, weights, draws, at, count, sums)?;
        centres[j] = b.pick;
        at = at + count;
    }
    Ok(at)
}

// As many centres as the list holds, among the items of the table, with the draws from place `at` on. Answers the place of the next draw, or what
// ends the run. Inner form. The lent weights hold anything, before the call and after it; so does the list of centres before it, and after it where a
// draw stopped it.
pub fn seed(
    squares: &[f64],
    draws: &[u64],
    at: usize,
    centres: &mut [usize],
    weights: &mut [f64],
) -> Result<usize, Stop>
    requires { Ready squares.now (length weights.old) (length centres.old) draws.now at }
    ensures { SeededBy (seeding (table squares.now (length weights.old)) (length weights.old) (length centres.old) at (drop at draws.now))
        (at + seeding_of (length centres.old)) result centres.new }
{
    let m = weights.len();
    let d = draws::draw_below(draws, at, m as u64)?;
    let c = d as usize;
    centres[0] = c;
    lists::copy(lists::row_of(squares, m, c), weights);
    let mut sums = lists::buffer::<f64, 256>(0.0);
    more_centres(squares, draws, at + 1, centres, weights, &mut sums[..m])
}
