// The centres of k-means called by itself: `kmeans_plus_plus`, on lent lists.
// A refusal before the start leaves every list as it was; else the working lists are left zero at their fronts.
#![tactic(auto)]

ghost use Rattle.std.specs.Prelude.{◌≡◌, ◌≤◌, ◌*◌, length, drop};
ghost use Rattle.lists.specs.Lists.{cell_at};
ghost use Rattle.distance_columns.specs.Pair.{squared_at};
ghost use Rattle.distance_columns.specs.Columns.{points_at};
ghost use Rattle.refusals.specs.Table.{work_doubles};
ghost use Rattle.draws.specs.Counts.{seeding_of};
ghost use Rattle.plusplus.specs.Seeding.{seeding, MaySeed};
ghost use Rattle.lloyd_table.specs.Area.{Held};
ghost use Rattle.kmeans_answers.specs.Answers.{refusal_of, read_of};
ghost use Rattle.kmeans_answers.specs.Leaf.{Points, took_of, ran_of};
ghost use Rattle.kmeans_plus_plus.specs.Leaves.{plus_plus_leaf};

use draws::Stop;
use kmeans_answers::{Kmeans, KmeansError};

// The centres, found in a list apart: a draw out of range leaves those that were lent as they were.
fn centres_apart(
    area: &[f64],
    n: usize,
    draws: &[u64],
    centres: &mut [usize],
    found: &mut [usize],
    weights: &mut [f64],
) -> Kmeans
    requires { Held area.now n × MaySeed n (length centres.old) draws.now 0 × (length found.old ≡ length centres.old) × (length weights.old ≡ n) }
    ensures { record { answer = refusal_of result; read = read_of result; out = centres.new }
        ≡ took_of draws.now (seeding (squared_at (points_at area.now n) n) n (length centres.old) 0 draws.now) centres.old }
{
    let next = kmeans::seed_in(area, n, draws, 0, found, weights)?;
    lists::copy(found, centres);
    Ok(next)
}

// The centres of k groups, with the areas in a lent list.
fn centres_alone(
    points: &[f64],
    n: usize,
    k: usize,
    draws: &[u64],
    centres: &mut [usize],
    area: &mut [f64],
) -> Kmeans
    requires { Points points.now n × MaySeed n k draws.now 0 × (length centres.old ≡ k) × (length area.old ≡ 5 * (n * n)) }
    ensures { record { answer = refusal_of result; read = read_of result; out = centres.new }
        ≡ took_of draws.now (seeding (squared_at (cell_at points.now n) n) n k 0 draws.now) centres.old }
{
    kmeans::prepare(points, n, area);
    let mut found = lists::buffer::<usize, 256>(0);
    let mut weights = lists::buffer::<f64, 256>(0.0);
    centres_apart(area, n, draws, centres, &mut found[..k], &mut weights[..n])
}

// The same on the working list; 7 where there are too few draws.
fn run_plus_plus(
    points: &[f64],
    n: usize,
    k: usize,
    draws: &[u64],
    centres: &mut [usize],
    floats: &mut [f64],
) -> Kmeans
    requires { Points points.now n × (2 ≤ k) × (k ≤ n) × (length centres.old ≡ k) × (work_doubles n ≤ length floats.old) }
    ensures centres_after { record { answer = refusal_of result; read = read_of result; out = centres.new }
        ≡ ran_of (seeding_of k) draws.now (seeding (squared_at (cell_at points.now n) n) n k 0 draws.now) centres.old }
    ensures floats_unchanged { drop (work_doubles n) floats.new ≡ drop (work_doubles n) floats.old }
{
    if kmeans_answers::too_few(draws.len(), k) {
        return Err(KmeansError::Stopped(Stop::Short(0)));
    }
    let end = 5 * (n * n);
    centres_alone(points, n, k, draws, centres, &mut floats[..end])
}

// The rows of k centres among the n items of a matrix of points, by k-means++.
pub fn kmeans_plus_plus(
    points: &[f64],
    n: usize,
    k: usize,
    draws: &[u64],
    centres: &mut [usize],
    floats: &mut [f64],
    numbers: &mut [usize],
) -> Kmeans
    ensures { record { answer = refusal_of result; read = read_of result; out = centres.new; floats = floats.new; numbers = numbers.new }
        ≡ plus_plus_leaf points.now n k draws.now centres.old floats.old numbers.old }
{
    let fits = kmeans_answers::lists_fit(n, centres.len(), k, floats.len(), numbers.len());
    kmeans_answers::check(points.len(), n, fits, k, 0, 0)?;
    let answer = run_plus_plus(points, n, k, draws, centres, floats);
    kmeans_answers::wipe(n, floats, numbers);
    answer
}
