// The start of a round: its base, and the rows of its weak items. Inner forms, for `cluster_kmeans_top`.
#![tactic(auto)]

ghost use Rattle.std.specs.Prelude.{◌≡◌, false, cond, ◌≤◌, ◌+◌, ◌-◌, ◌*◌, ltb, length, take, drop};
ghost use Rattle.round.specs.Round.{opening_of};
ghost use Rattle.round.specs.Made.{own_given, own_moved};
ghost use Rattle.round.specs.Steps.{RoundInput, RoundStarted, MayStart};

use draws::Stop;
use plusplus_seeded::Source;

// How many groups the base has, how many of them are weak, how many items those have, and the source behind the draws.
#[derive(Drop)]
pub struct RoundStart {
    pub groups: usize,
    pub weak: usize,
    pub items: usize,
    pub source: Source,
}

// The round's base and its weak items, where there are draws enough; `order`, `sizes` and `scores` are lists to work in.
fn start_with(
    book: &[f64],
    n: usize,
    repeat: usize,
    draws: &[u64],
    src: Source,
    left: usize,
    wi: &mut [usize],
    wf: &mut [f64],
    order: &mut [usize],
    sizes: &mut [usize],
    scores: &mut [f64],
) -> Result<RoundStart, Stop>
    requires { MayStart book.now n (length order.old) repeat draws.now src left wi.old wf.old × (length sizes.old ≡ length order.old) × (length scores.old ≡ length order.old) }
    ensures { RoundStarted (opening_of book.now n repeat (take (length order.old) wi.old) src.at (own_given src draws.now book.now n repeat (take (length order.old) wi.old))) n (length order.old) left
        (own_moved src book.now n repeat (take (length order.old) wi.old)) result wi.old wi.new wf.old wf.new }
{
    let m = order.len();
    let off = left * n;
    let end = off + 5 * (m * m);
    let based = base::cluster_kmeans_base(
        book,
        n,
        &wi[..m],
        repeat,
        draws,
        src,
        &mut wf[off..end],
        order,
        sizes,
        scores,
    )?;
    let groups = based.groups;
    round_lists::store_base(n, order, sizes, scores, wi, wf);
    let weak = round_lists::find_weak(n, groups, order, sizes, scores, wi);
    Ok(RoundStart {
        groups,
        weak: weak.groups,
        items: weak.items,
        source: based.source,
    })
}

// Whether a list has fewer draws from place `at` on than are needed; a generator has all.
fn lacks(draws: &[u64], at: usize, seeded: bool, need: usize) -> bool
    requires { seeded ≡ false → at ≤ length draws.now }
    ensures { result ≡ cond seeded false (ltb (length draws.now - at) need) }
{
    if seeded {
        return false;
    }
    draws.len() - at < need
}

// The start of a round over m items: 7 where there are too few draws, else its base and its weak items. Inner form. The fronts of the working
// lists, 4 n numbers and left * n + 5 n² doubles, hold the rows, the base and the rows of the weak items where there is a base, and else anything.
pub fn start_round(
    book: &[f64],
    n: usize,
    m: usize,
    repeat: usize,
    draws: &[u64],
    src: Source,
    left: usize,
    wi: &mut [usize],
    wf: &mut [f64],
) -> Result<RoundStart, Stop>
    requires { RoundInput book.now n m repeat draws.now src left wi.old × (1 ≤ left) × (left ≤ 32) × (4 * n ≤ length wi.old) × (left * n + 5 * (n * n) ≤ length wf.old) }
    ensures { RoundStarted (opening_of book.now n repeat (take m wi.old) src.at (own_given src draws.now book.now n repeat (take m wi.old))) n m left
        (own_moved src book.now n repeat (take m wi.old)) result wi.old wi.new wf.old wf.new }
{
    let need = repeat * (draws::draws_for(m) as usize);
    if lacks(draws, src.at, src.seeded, need) {
        return Err(Stop::Short(src.at));
    }
    let mut order = lists::buffer::<usize, 256>(0);
    let mut sizes = lists::buffer::<usize, 256>(0);
    let mut scores = lists::buffer::<f64, 256>(0.0);
    start_with(
        book,
        n,
        repeat,
        draws,
        src,
        left,
        wi,
        wf,
        &mut order[..m],
        &mut sizes[..m],
        &mut scores[..m],
    )
}
