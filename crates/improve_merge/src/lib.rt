// The weak groups of a partition, and the kept ones with those of the inner book behind them. Inner forms, for `improve_clusters` and the rounds.
#![tactic(auto)]

ghost use Rattle.std.specs.Prelude.{◌≡◌, length};
ghost use Rattle.partition.specs.Orders.{cut, Sized};
ghost use Rattle.quality.specs.Quality.{kept_groups};
ghost use Rattle.improve_merge.specs.Merging.{merged_of};
ghost use Rattle.improve_merge.specs.Steps.{state_of, WeakListed, Kept, Behind, Appended, Improvable, Merged};

use quality_pick::Picked;

// How many groups are weak, how many items they have, and the plain average of their t-stats.
#[derive(Drop)]
pub struct Weak {
    pub groups: usize,
    pub items: usize,
    pub mean: f64,
}

// The weak items, at the front of `items`, with lists to work in: the t-stats and the sizes of the weak groups.
fn weak_with(
    order: &[usize],
    sizes: &[usize],
    scores: &[f64],
    items: &mut [usize],
    qs: &mut [f64],
    counts: &mut [usize],
) -> Weak
    requires { Sized (length scores.now) (length qs.old) order.now sizes.now × (length items.old ≡ length scores.now) × (length counts.old ≡ length scores.now) }
    ensures { WeakListed (state_of (length qs.old) sizes.now order.now scores.now) result.groups result.items result.mean items.old items.new }
{
    quality::qualities(order, sizes, scores, qs);
    let limit = quality::average(qs);
    let picked = quality_pick::pick(order, sizes, qs, limit, true, items, counts);
    Weak {
        groups: quality::weak_count(qs),
        items: picked.items,
        mean: quality::weak_mean(qs),
    }
}

// The weak items of a partition, in group order, at the front of `items`.
pub fn weak_items(
    order: &[usize],
    sizes: &[usize],
    count: usize,
    scores: &[f64],
    items: &mut [usize],
) -> Weak
    requires { Sized (length scores.now) count order.now sizes.now × (length items.old ≡ length scores.now) }
    ensures { WeakListed (state_of count sizes.now order.now scores.now) result.groups result.items result.mean items.old items.new }
{
    let m = scores.len();
    let mut qs = lists::buffer::<f64, 256>(0.0);
    let mut counts = lists::buffer::<usize, 256>(0);
    weak_with(
        order,
        sizes,
        scores,
        items,
        &mut qs[..count],
        &mut counts[..m],
    )
}

// The groups that are not weak, at the front of `out` and `counts`, with a list to work in.
fn kept_with(
    order: &[usize],
    sizes: &[usize],
    scores: &[f64],
    out: &mut [usize],
    counts: &mut [usize],
    qs: &mut [f64],
) -> Picked
    requires { Sized (length scores.now) (length qs.old) order.now sizes.now × (length out.old ≡ length scores.now) × (length counts.old ≡ length scores.now) }
    ensures { Kept (kept_groups scores.now (cut (length qs.old) sizes.now order.now)) result.groups result.items out.old out.new counts.new }
{
    quality::qualities(order, sizes, scores, qs);
    let limit = quality::average(qs);
    quality_pick::pick(order, sizes, qs, limit, false, out, counts)
}

fn kept_groups(
    order: &[usize],
    sizes: &[usize],
    count: usize,
    scores: &[f64],
    out: &mut [usize],
    counts: &mut [usize],
) -> Picked
    requires { Sized (length scores.now) count order.now sizes.now × (length out.old ≡ length scores.now) × (length counts.old ≡ length scores.now) }
    ensures { Kept (kept_groups scores.now (cut count sizes.now order.now)) result.groups result.items out.old out.new counts.new }
{
    let mut qs = lists::buffer::<f64, 256>(0.0);
    kept_with(order, sizes, scores, out, counts, &mut qs[..count])
}

// The groups of the inner book behind those that stand in `out` and `counts`, their row numbers translated by `items`.
fn append_groups(
    items: &[usize],
    order: &[usize],
    sizes: &[usize],
    count: usize,
    kept: Picked,
    out: &mut [usize],
    counts: &mut [usize],
)
    requires { Behind items.now order.now sizes.now count kept.groups kept.items out.old counts.old }
    ensures { Appended items.now order.now sizes.now count kept.groups kept.items out.old out.new counts.old counts.new }
{
    let from = kept.items;
    let end = from + order.len();
    row_numbers::translate(items, order, &mut out[from..end]);
    let first = kept.groups;
    let last = first + count;
    lists::copy(&sizes[..count], &mut counts[first..last]);
}

// The kept groups, then those of the inner book; answers how many they are. `items` has the weak items.
pub fn merge(
    order: &[usize],
    sizes: &[usize],
    count: usize,
    scores: &[f64],
    items: &[usize],
    inner_order: &[usize],
    inner_sizes: &[usize],
    inner: usize,
    out: &mut [usize],
    counts: &mut [usize],
) -> usize
    requires { Improvable (length scores.now) count order.now sizes.now scores.now items.now inner inner_order.now inner_sizes.now × (length out.old ≡ length scores.now) × (length counts.old ≡ length scores.now) }
    ensures { Merged (merged_of (state_of count sizes.now order.now scores.now) (cut inner inner_sizes.now inner_order.now))
        (length scores.now) result out.new counts.new }
{
    let kept = kept_groups(order, sizes, count, scores, out, counts);
    let groups = kept.groups + inner;
    append_groups(items, inner_order, inner_sizes, inner, kept, out, counts);
    groups
}
