// The partition of a round with its weak groups clustered again, and its scores. Inner forms, for the rounds.
#![tactic(auto)]

ghost use Rattle.std.specs.Prelude.{◌≡◌, ◌*◌, length};
ghost use Rattle.distance.specs.Distance.{Readable, dist_at};
ghost use Rattle.silhouette_areas.specs.Scoring.{scores_of};
ghost use Rattle.partition.specs.Partition.{label_of};
ghost use Rattle.partition.specs.Orders.{cut, Sized};
ghost use Rattle.improve_merge.specs.Merging.{merged_of};
ghost use Rattle.improve_merge.specs.Steps.{state_of, Improvable};
ghost use Rattle.improve.specs.Improve.{rescored, mean_quality};
ghost use Rattle.improve.specs.Steps.{Scored, Improves};

// How many groups the improved partition has, and the plain average of their t-stats.
#[derive(Drop)]
pub struct Improved {
    pub groups: usize,
    pub mean: f64,
}

// The scores of the items under the groups, worked out afresh on the book that the rows make; `labels` is a list to work in.
fn rescore_with(
    book: &[f64],
    n: usize,
    rows: &[usize],
    order: &[usize],
    sizes: &[usize],
    count: usize,
    area: &mut [f64],
    labels: &mut [usize],
    scores: &mut [f64],
)
    requires { Scored book.now n rows.now order.now sizes.now count area.old (length labels.old) (length scores.old) }
    ensures { scores.new ≡ scores_of (dist_at book.now n rows.now) (length rows.now) (label_of (cut count sizes.now order.now)) }
{
    let m = rows.len();
    let four = 4 * (m * m);
    areas::book_pairs(book, n, rows, &mut area[..four]);
    partition::labels_from_clusters(order, sizes, count, labels);
    silhouette_areas::scores_in(area, m, labels, count, scores);
}

// The same, without a list to work in.
fn rescore(
    book: &[f64],
    n: usize,
    rows: &[usize],
    order: &[usize],
    sizes: &[usize],
    count: usize,
    area: &mut [f64],
    scores: &mut [f64],
)
    requires { Scored book.now n rows.now order.now sizes.now count area.old (length rows.now) (length scores.old) }
    ensures { scores.new ≡ scores_of (dist_at book.now n rows.now) (length rows.now) (label_of (cut count sizes.now order.now)) }
{
    let m = rows.len();
    let mut labels = lists::buffer::<usize, 256>(0);
    rescore_with(
        book,
        n,
        rows,
        order,
        sizes,
        count,
        area,
        &mut labels[..m],
        scores,
    );
}

// The plain average of the groups' t-stats, with a list to work in.
fn mean_with(order: &[usize], sizes: &[usize], scores: &[f64], qs: &mut [f64]) -> f64
    requires { Sized (length scores.now) (length qs.old) order.now sizes.now }
    ensures { result ≡ mean_quality (state_of (length qs.old) sizes.now order.now scores.now) }
{
    quality::qualities(order, sizes, scores, qs);
    quality::average(qs)
}

fn mean_quality(order: &[usize], sizes: &[usize], count: usize, scores: &[f64]) -> f64
    requires { Sized (length scores.now) count order.now sizes.now }
    ensures { result ≡ mean_quality (state_of count sizes.now order.now scores.now) }
{
    let mut qs = lists::buffer::<f64, 256>(0.0);
    mean_with(order, sizes, scores, &mut qs[..count])
}

// The partition whose weak groups were clustered again, in `out` and `counts`, and its scores on the book that the rows make. The areas
// hold anything afterwards. Inner form.
pub fn improve_clusters(
    book: &[f64],
    n: usize,
    rows: &[usize],
    order: &[usize],
    sizes: &[usize],
    count: usize,
    scores: &[f64],
    items: &[usize],
    inner_order: &[usize],
    inner_sizes: &[usize],
    inner: usize,
    area: &mut [f64],
    out: &mut [usize],
    counts: &mut [usize],
    new_scores: &mut [f64],
) -> Improved
    requires { Readable book.now n rows.now × (length rows.now ≡ length scores.now) × (length area.old ≡ 5 * (length rows.now * length rows.now))
        × Improvable (length scores.now) count order.now sizes.now scores.now items.now inner inner_order.now inner_sizes.now
        × (length out.old ≡ length scores.now) × (length counts.old ≡ length scores.now) × (length new_scores.old ≡ length scores.now) }
    ensures { Improves (rescored (dist_at book.now n rows.now) (length rows.now)
        (merged_of (state_of count sizes.now order.now scores.now) (cut inner inner_sizes.now inner_order.now)))
        (length rows.now) result.groups result.mean out.new counts.new new_scores.new }
{
    let groups = improve_merge::merge(
        order,
        sizes,
        count,
        scores,
        items,
        inner_order,
        inner_sizes,
        inner,
        out,
        counts,
    );
    rescore(book, n, rows, out, counts, groups, area, new_scores);
    let mean = mean_quality(out, counts, groups, new_scores);
    Improved { groups, mean }
}
