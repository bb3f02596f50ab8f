// The t-stat of each group, and which groups are weak. Inner forms, for the rounds.
#![tactic(auto)]

ghost use Rattle.std.specs.Prelude.{◌≡◌, map, ℕ, ◌≤◌, ◌<◌, ◌+◌, length};
ghost use Rattle.lists.specs.Lists.{cells, numbers};
ghost use Rattle.partition.specs.Orders.{cut, Sized};
ghost use Rattle.quality.specs.Quality as quality;
ghost use Rattle.quality.specs.Quality.{quality_of, qualities_of};

// The scores of the members, in their order.
fn gather(members: &[usize], scores: &[f64], out: &mut [f64])
    requires { ((j : ℕ) → j < length members.now → numbers members.now j < length scores.now) × (length out.old ≡ length members.now) }
    ensures { out.new ≡ map (cells scores.now) members.now }
{
    for (j, i) in members.iter().enumerate() {
        out[j] = scores[*i];
    }
}

// The t-stat of one group.
fn group_quality(members: &[usize], scores: &[f64]) -> f64
    requires { (length members.now ≤ 256) × ((j : ℕ) → j < length members.now → numbers members.now j < length scores.now) }
    ensures { result ≡ quality_of scores.now members.now }
{
    let n = members.len();
    let mut values = lists::buffer::<f64, 256>(0.0);
    gather(members, scores, &mut values[..n]);
    tstat::tstat_value(&values[..n])
}

// The t-stat of each of the groups, as many as `out` has places.
pub fn qualities(order: &[usize], sizes: &[usize], scores: &[f64], out: &mut [f64])
    requires { Sized (length scores.now) (length out.old) order.now sizes.now }
    ensures { out.new ≡ qualities_of scores.now (cut (length out.old) sizes.now order.now) }
{
    let count = out.len();
    let mut at = 0;
    for (g, size) in sizes[..count].iter().enumerate() {
        let end = at + *size;
        out[g] = group_quality(&order[at..end], scores);
        at = end;
    }
}

// The plain average of the t-stats, of at most 256 groups.
pub fn average(qs: &[f64]) -> f64
    requires { length qs.now ≤ 256 }
    ensures { result ≡ quality.average qs.now }
{
    tstat::mean_of_value(qs)
}

// How many groups are weak, of at most 256.
pub fn weak_count(qs: &[f64]) -> usize
    requires { length qs.now ≤ 256 }
    ensures { result ≡ quality.weak_count qs.now }
{
    let limit = average(qs);
    qs.iter().filter(|q| **q < limit).count()
}

// The plain average of the t-stats of the weak groups, of at most 256 groups.
pub fn weak_mean(qs: &[f64]) -> f64
    requires { length qs.now ≤ 256 }
    ensures { result ≡ quality.weak_mean qs.now }
{
    let limit = average(qs);
    let mut sum = 0.0;
    for q in qs {
        if *q < limit {
            sum = sum + *q;
        }
    }
    let count = weak_count(qs);
    sum / lists::count_as_f64(count)
}
