// The end of a round: the choice between its base and the partition that the re-clustering of its weak items gives. Inner forms, for
// `cluster_kmeans_top`.
#![tactic(auto)]

ghost use Rattle.std.specs.Prelude.{◌*◌, length, take};
ghost use Rattle.lists.specs.Lists.{part};
ghost use Rattle.distance.specs.Distance.{dist_at};
ghost use Rattle.partition.specs.Orders.{cut};
ghost use Rattle.improve.specs.Improve.{better_of};
ghost use Rattle.improve_merge.specs.Steps.{state_of};
ghost use Rattle.round_end.specs.Steps.{InnerEnded, WorkLists, RoundEnded};

// The better of the round's base, of `count` groups, and the partition in which the inner one, of `inner` groups, stands for its weak groups. The
// inner one stands at the front of `order` and `sizes`, w items long. The last five lists are to work in. Answers how many groups.
fn end_with(
    book: &[f64],
    n: usize,
    left: usize,
    count: usize,
    inner: usize,
    w: usize,
    order: &mut [usize],
    sizes: &mut [usize],
    scores: &mut [f64],
    wi: &[usize],
    wf: &mut [f64],
    old_scores: &mut [f64],
    items: &mut [usize],
    new_order: &mut [usize],
    new_sizes: &mut [usize],
    new_scores: &mut [f64],
) -> usize
    requires { InnerEnded book.now n left count inner w order.old sizes.old scores.old wi.now wf.old
        × WorkLists (length order.old) old_scores.old items.old new_order.old new_sizes.old new_scores.old }
    ensures { RoundEnded (better_of (dist_at book.now n (take (length order.old) wi.now)) (length order.old)
        (state_of count (part (2 * n) (length order.old) wi.now) (part n (length order.old) wi.now) (take (length order.old) wf.old))
        (cut inner (take w sizes.old) (take w order.old)))
        n left result (length order.old) order.new sizes.new scores.new wf.old wf.new }
{
    let m = order.len();
    let second = n + m;
    let from = 2 * n;
    let third = from + m;
    let off = left * n;
    let end = off + 5 * (m * m);
    lists::copy(&wf[..m], old_scores);
    let weak = improve_merge::weak_items(
        &wi[n..second],
        &wi[from..third],
        count,
        old_scores,
        items,
    );
    let improved = improve::improve_clusters(
        book,
        n,
        &wi[..m],
        &wi[n..second],
        &wi[from..third],
        count,
        old_scores,
        &items[..w],
        &order[..w],
        &sizes[..w],
        inner,
        &mut wf[off..end],
        new_order,
        new_sizes,
        new_scores,
    );
    choice::choose(
        improved.mean,
        weak.mean,
        count,
        improved.groups,
        &wi[n..second],
        new_order,
        &wi[from..third],
        new_sizes,
        old_scores,
        new_scores,
        order,
        sizes,
        scores,
    )
}

// The same, with working lists of its own. Inner form. The first left * n + 5 n² doubles of `wf` hold anything afterwards.
pub fn end_round(
    book: &[f64],
    n: usize,
    left: usize,
    count: usize,
    inner: usize,
    w: usize,
    order: &mut [usize],
    sizes: &mut [usize],
    scores: &mut [f64],
    wi: &[usize],
    wf: &mut [f64],
) -> usize
    requires { InnerEnded book.now n left count inner w order.old sizes.old scores.old wi.now wf.old }
    ensures { RoundEnded (better_of (dist_at book.now n (take (length order.old) wi.now)) (length order.old)
        (state_of count (part (2 * n) (length order.old) wi.now) (part n (length order.old) wi.now) (take (length order.old) wf.old))
        (cut inner (take w sizes.old) (take w order.old)))
        n left result (length order.old) order.new sizes.new scores.new wf.old wf.new }
{
    let m = order.len();
    let mut old_scores = lists::buffer::<f64, 256>(0.0);
    let mut items = lists::buffer::<usize, 256>(0);
    let mut new_order = lists::buffer::<usize, 256>(0);
    let mut new_sizes = lists::buffer::<usize, 256>(0);
    let mut new_scores = lists::buffer::<f64, 256>(0.0);
    end_with(
        book,
        n,
        left,
        count,
        inner,
        w,
        order,
        sizes,
        scores,
        wi,
        wf,
        &mut old_scores[..m],
        &mut items[..m],
        &mut new_order[..m],
        &mut new_sizes[..m],
        &mut new_scores[..m],
    )
}
