// Lloyd's passes called by themselves: `lloyd`, on lent lists.
// A refusal before the start leaves every list as it was; else the working lists are left zero at their fronts.
#![tactic(auto)]

ghost use Rattle.std.specs.Prelude.{◌≡◌, ◌*◌, length};
ghost use Rattle.lists.specs.Lists.{cell_at, numbers};
ghost use Rattle.lloyd_table.specs.Area.{Centres};
ghost use Rattle.lloyd_pass.specs.Passes.{lloyd_labels};
ghost use Rattle.kmeans_answers.specs.Answers.{refusal_of, read_of};
ghost use Rattle.kmeans_answers.specs.Leaf.{Points};
ghost use Rattle.kmeans_lloyd.specs.Leaves.{lloyd_leaf};

use kmeans_answers::Kmeans;

// The labels from the items `centres` as first centroids, with the areas in a lent list.
fn lloyd_alone(points: &[f64], n: usize, centres: &[usize], labels: &mut [usize], area: &mut [f64])
    requires { Points points.now n × Centres centres.now n × (length labels.old ≡ n) × (length area.old ≡ 5 * (n * n)) }
    ensures { labels.new ≡ lloyd_labels (cell_at points.now n) n (length centres.now) (numbers centres.now) }
{
    kmeans::prepare(points, n, area);
    lloyd::lloyd_in(area, n, centres, labels);
}

// The label of each of the n items of a matrix of points, by Lloyd's passes from the items `centres`.
pub fn lloyd(
    points: &[f64],
    n: usize,
    centres: &[usize],
    labels: &mut [usize],
    floats: &mut [f64],
    numbers: &mut [usize],
) -> Kmeans
    ensures { record { answer = refusal_of result; read = read_of result; out = labels.new; floats = floats.new; numbers = numbers.new }
        ≡ lloyd_leaf points.now n centres.now labels.old floats.old numbers.old }
{
    let fits = kmeans_answers::lists_fit(n, labels.len(), n, floats.len(), numbers.len());
    let bad = lists::first_from(n, centres);
    kmeans_answers::check(points.len(), n, fits, centres.len(), bad, centres.len())?;
    let end = 5 * (n * n);
    lloyd_alone(points, n, centres, labels, &mut floats[..end]);
    kmeans_answers::wipe(n, floats, numbers);
    Ok(0)
}
