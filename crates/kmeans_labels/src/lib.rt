// k-means called by itself: k-means++ and Lloyd's passes together as `kmeans_labels`, on lent lists.
// A refusal before the start leaves every list as it was; else the working lists are left zero at their fronts.
#![tactic(auto)]

ghost use Rattle.std.specs.Prelude.{◌≡◌, ◌≤◌, ◌*◌, length, drop};
ghost use Rattle.lists.specs.Lists.{cell_at};
ghost use Rattle.refusals.specs.Table.{work_doubles};
ghost use Rattle.draws.specs.Counts.{seeding_of};
ghost use Rattle.plusplus.specs.Seeding.{MaySeed};
ghost use Rattle.kmeans.specs.Clustering.{kmeans_of};
ghost use Rattle.kmeans_answers.specs.Answers.{refusal_of, read_of};
ghost use Rattle.kmeans_answers.specs.Leaf.{Points, took_of, ran_of};
ghost use Rattle.kmeans_labels.specs.Leaves.{labels_of, labels_leaf};

use draws::Stop;
use kmeans_answers::{Kmeans, KmeansError};

// The labels of the items in k groups, with the areas in a lent list.
fn labels_alone(
    points: &[f64],
    n: usize,
    k: usize,
    draws: &[u64],
    labels: &mut [usize],
    area: &mut [f64],
) -> Kmeans
    requires { Points points.now n × MaySeed n k draws.now 0 × (length labels.old ≡ n) × (length area.old ≡ 5 * (n * n)) }
    ensures { record { answer = refusal_of result; read = read_of result; out = labels.new }
        ≡ took_of draws.now (labels_of (kmeans_of (cell_at points.now n) n k 0 draws.now)) labels.old }
{
    kmeans::prepare(points, n, area);
    let clustered = kmeans::labels_in(area, n, k, draws, 0, labels)?;
    Ok(clustered.at)
}

// The same on the working list; 7 where there are too few draws.
fn run_labels(
    points: &[f64],
    n: usize,
    k: usize,
    draws: &[u64],
    labels: &mut [usize],
    floats: &mut [f64],
) -> Kmeans
    requires { Points points.now n × (2 ≤ k) × (k ≤ n) × (length labels.old ≡ n) × (work_doubles n ≤ length floats.old) }
    ensures labels_after { record { answer = refusal_of result; read = read_of result; out = labels.new }
        ≡ ran_of (seeding_of k) draws.now (labels_of (kmeans_of (cell_at points.now n) n k 0 draws.now)) labels.old }
    ensures floats_unchanged { drop (work_doubles n) floats.new ≡ drop (work_doubles n) floats.old }
{
    if kmeans_answers::too_few(draws.len(), k) {
        return Err(KmeansError::Stopped(Stop::Short(0)));
    }
    let end = 5 * (n * n);
    labels_alone(points, n, k, draws, labels, &mut floats[..end])
}

// The label of each of the n items of a matrix of points, in k groups: k-means++, then Lloyd's passes.
pub fn kmeans_labels(
    points: &[f64],
    n: usize,
    k: usize,
    draws: &[u64],
    labels: &mut [usize],
    floats: &mut [f64],
    numbers: &mut [usize],
) -> Kmeans
    ensures { record { answer = refusal_of result; read = read_of result; out = labels.new; floats = floats.new; numbers = numbers.new }
        ≡ labels_leaf points.now n k draws.now labels.old floats.old numbers.old }
{
    let sized = kmeans_answers::lists_fit(n, labels.len(), n, floats.len(), numbers.len());
    kmeans_answers::check(points.len(), n, sized, k, 0, 0)?;
    let answer = run_labels(points, n, k, draws, labels, floats);
    kmeans_answers::wipe(n, floats, numbers);
    answer
}
