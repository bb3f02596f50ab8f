// A round: its start, the re-clustering of its weak items, which is the whole round again on a book of their own, and the choice between the
// two partitions. Inner form, for the public call.
#![tactic(auto)]

ghost use Rattle.std.specs.Prelude.{◌*◌, length, take};
ghost use Rattle.round.specs.Round.{round_of};
ghost use Rattle.round.specs.Made.{round_given};
ghost use Rattle.round_top.specs.Steps.{Ready, RoundLeaves};

use draws::Stop;
use plusplus_seeded::Source;

// How many groups, and the draws read.
#[derive(Drop)]
pub struct Top {
    pub groups: usize,
    pub read: usize,
}

// A round with `left` rounds left, on the rows at the front of `wi`. Its answer goes to `order`, `sizes` and `scores`, which have a place for each of
// its items; a run that is refused leaves them as they were. The fronts of the working lists, `wi` of numbers and `wf` of doubles, hold anything
// afterwards; what lies behind is kept.
pub fn cluster_kmeans_top(
    book: &[f64],
    n: usize,
    repeat: usize,
    draws: &[u64],
    src: Source,
    left: usize,
    order: &mut [usize],
    sizes: &mut [usize],
    scores: &mut [f64],
    wi: &mut [usize],
    wf: &mut [f64],
) -> Result<Top, Stop>
    requires { Ready book.now n repeat draws.now src left order.old sizes.old scores.old wi.old wf.old }
    ensures { RoundLeaves (round_of book.now n repeat left (take (length order.old) wi.old) src.at
        (round_given src draws.now book.now n repeat left (take (length order.old) wi.old))) n left result
        order.old order.new sizes.old sizes.new scores.old scores.new
        wi.old wi.new wf.old wf.new }
{
    if left == 0 {
        return Err(Stop::Rounds);
    }
    let m = order.len();
    let start = round::start_round(book, n, m, repeat, draws, src, left, &mut *wi, &mut *wf)?;
    let groups = start.groups;
    let w = start.items;
    let after = start.source;
    if start.weak <= 2 {
        round_lists::keep(n, order, sizes, scores, &wi[..], &wf[..]);
        return Ok(Top {
            groups,
            read: after.at,
        });
    }
    let below = 3 * n;
    let inner = cluster_kmeans_top(
        book,
        n,
        repeat,
        draws,
        after,
        left - 1,
        &mut order[..w],
        &mut sizes[..w],
        &mut scores[..w],
        &mut wi[below..],
        &mut wf[n..],
    )?;
    let g = round_end::end_round(
        book,
        n,
        left,
        groups,
        inner.groups,
        w,
        order,
        sizes,
        scores,
        &wi[..],
        wf,
    );
    Ok(Top {
        groups: g,
        read: inner.read,
    })
}
