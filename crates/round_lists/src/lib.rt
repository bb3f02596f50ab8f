// The base of a round in the working lists of the run, and the rows of its weak items. Inner forms, for the rounds.
#![tactic(auto)]

ghost use Rattle.std.specs.Prelude.{◌≡◌, ◌≤◌, ◌*◌, length, take};
ghost use Rattle.lists.specs.Lists.{part};
ghost use Rattle.partition.specs.Orders.{Sized};
ghost use Rattle.improve_merge.specs.Steps.{state_of};
ghost use Rattle.round_lists.specs.Steps.{Room, Stored, StoresRows, WeakFound, RowsStored};

use improve_merge::Weak;

// The base in its places: order and sizes in the numbers, scores in the doubles. What lies between their ends and the next place is left with
// anything.
pub fn store_base(
    n: usize,
    order: &[usize],
    sizes: &[usize],
    scores: &[f64],
    wi: &mut [usize],
    wf: &mut [f64],
)
    requires { Room n (length order.now) wi.old wf.old × (length sizes.now ≡ length order.now) × (length scores.now ≡ length order.now) }
    ensures { Stored n order.now sizes.now scores.now wi.old wi.new wf.old wf.new }
{
    let m = order.len();
    let end = n + m;
    lists::copy(order, &mut wi[n..end]);
    let from = 2 * n;
    let last = from + m;
    lists::copy(sizes, &mut wi[from..last]);
    lists::copy(scores, &mut wf[..m]);
}

// The rows of the items, as rows of the book, at the front of the inner round's numbers; `rows` is a list to work in.
fn store_rows(n: usize, m: usize, items: &[usize], rows: &mut [usize], wi: &mut [usize])
    requires { StoresRows n m items.now wi.old × (length rows.old ≡ length items.now) }
    ensures { RowsStored n m items.now wi.old wi.new }
{
    row_numbers::translate(&wi[..m], items, rows);
    let from = 3 * n;
    let end = from + items.len();
    lists::copy(rows, &mut wi[from..end]);
}

// The weak items of the base, and their rows at the front of the inner round's numbers; `items` and `rows` are lists to work in.
fn find_weak_with(
    n: usize,
    count: usize,
    order: &[usize],
    sizes: &[usize],
    scores: &[f64],
    wi: &mut [usize],
    items: &mut [usize],
    rows: &mut [usize],
) -> Weak
    requires { Sized (length scores.now) count order.now sizes.now × (length scores.now ≤ n) × (n ≤ 256) × (4 * n ≤ length wi.old)
        × (length items.old ≡ length scores.now) × (length rows.old ≡ length scores.now) }
    ensures { WeakFound n (length scores.now) (state_of count sizes.now order.now scores.now) result.groups result.items wi.old wi.new }
{
    let m = scores.len();
    let weak = improve_merge::weak_items(order, sizes, count, scores, items);
    let w = weak.items;
    store_rows(n, m, &items[..w], &mut rows[..w], wi);
    weak
}

// The same, without lists to work in. What lies behind the rows, up to place 4 n, is left with anything, and nothing is
// said of `mean`.
pub fn find_weak(
    n: usize,
    count: usize,
    order: &[usize],
    sizes: &[usize],
    scores: &[f64],
    wi: &mut [usize],
) -> Weak
    requires { Sized (length scores.now) count order.now sizes.now × (length scores.now ≤ n) × (n ≤ 256) × (4 * n ≤ length wi.old) }
    ensures { WeakFound n (length scores.now) (state_of count sizes.now order.now scores.now) result.groups result.items wi.old wi.new }
{
    let m = scores.len();
    let mut items = lists::buffer::<usize, 256>(0);
    let mut rows = lists::buffer::<usize, 256>(0);
    find_weak_with(
        n,
        count,
        order,
        sizes,
        scores,
        wi,
        &mut items[..m],
        &mut rows[..m],
    )
}

// The base from its places, as the answer.
pub fn keep(
    n: usize,
    order: &mut [usize],
    sizes: &mut [usize],
    scores: &mut [f64],
    wi: &[usize],
    wf: &[f64],
)
    requires { Room n (length order.old) wi.now wf.now × (length sizes.old ≡ length order.old) × (length scores.old ≡ length order.old) }
    ensures { (order.new ≡ part n (length order.old) wi.now) × (sizes.new ≡ part (2 * n) (length order.old) wi.now)
        × (scores.new ≡ take (length order.old) wf.now) }
{
    let m = order.len();
    let end = n + m;
    lists::copy(&wi[n..end], order);
    let from = 2 * n;
    let last = from + m;
    lists::copy(&wi[from..last], sizes);
    lists::copy(&wf[..m], scores);
}
