// The choice between two candidates, and between the old partition and the new one.
#![tactic(auto)]

ghost use Rattle.std.specs.Prelude.{◌≡◌, ◌<◌, length};
ghost use Rattle.choice.specs.Choice.{chosen};
ghost use Rattle.choice.specs.Replaces.{replaces_kept};

// The t-stat and the plain mean of the best candidate so far. Its labels and scores stand in lent lists.
#[derive(Clone, Copy)]
pub struct Kept {
    pub stat: f64,
    pub mean: f64,
}

// Whether a candidate with this t-stat and this mean replaces what is kept, if there is anything.
pub fn replaces(stat: f64, mean: f64, kept: Option<Kept>) -> bool
    ensures { result ≡ replaces_kept stat mean kept }
{
    match kept {
        None => -lists::infinity() < stat,
        Some(best) => {
            if best.stat < stat {
                return true;
            }
            if stat == best.stat {
                return best.mean < mean;
            }
            false
        }
    }
}

// The list that was lent as new where its mean t-stat is strictly greater, else the one that was lent as old: the list itself, no copy.
pub fn check_improve_clusters<'a>(
    new_tstat_mean: f64,
    mean_redo_tstat: f64,
    old_list: &'a [usize],
    new_list: &'a [usize],
) -> &'a [usize]
    ensures { result ≡ chosen new_tstat_mean mean_redo_tstat old_list.entry new_list.entry }
{
    if new_tstat_mean > mean_redo_tstat {
        new_list
    } else {
        old_list
    }
}

// The partition that is chosen as the answer, by the mean t-stats of the new one and of the weak groups of the old one; and how many groups it has. Inner form.
pub fn choose<'a>(
    new_mean: f64,
    old_mean: f64,
    old_groups: usize,
    new_groups: usize,
    old_order: &'a [usize],
    new_order: &'a [usize],
    old_sizes: &'a [usize],
    new_sizes: &'a [usize],
    old_scores: &[f64],
    new_scores: &[f64],
    order: &mut [usize],
    sizes: &mut [usize],
    scores: &mut [f64],
) -> usize
    requires { (length old_order.now ≡ length order.old) × (length new_order.now ≡ length order.old) × (length old_sizes.now ≡ length sizes.old) × (length new_sizes.now ≡ length sizes.old)
        × (length old_scores.now ≡ length scores.old) × (length new_scores.now ≡ length scores.old) }
    ensures { (result ≡ chosen new_mean old_mean old_groups new_groups) × (order.new ≡ chosen new_mean old_mean old_order.now new_order.now)
        × (sizes.new ≡ chosen new_mean old_mean old_sizes.now new_sizes.now)
        × (scores.new ≡ chosen new_mean old_mean old_scores.now new_scores.now) }
{
    lists::copy(
        check_improve_clusters(new_mean, old_mean, old_order, new_order),
        order,
    );
    lists::copy(
        check_improve_clusters(new_mean, old_mean, old_sizes, new_sizes),
        sizes,
    );
    if new_mean > old_mean {
        lists::copy(new_scores, scores);
        return new_groups;
    }
    lists::copy(old_scores, scores);
    old_groups
}
