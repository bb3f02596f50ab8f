// One centre more of k-means++: trials of one draw each, and the best of them.
#![tactic(auto)]

ghost use Rattle.std.specs.Prelude.{◌≡◌, ◌<◌, ◌≤◌, ◌+◌, ◌-◌, length, drop};
ghost use Rattle.lists.specs.Lists.{cells};
ghost use Rattle.lists.specs.Sums.{sum_to};
ghost use Rattle.draws.specs.Draws.{takes};
ghost use Rattle.plusplus_pick.specs.Potentials as spec;
ghost use Rattle.plusplus_pick.specs.Potentials.{RunningSums};
ghost use Rattle.plusplus_trials.specs.Trials.{against, table, next_of, tried_of, Weighed};

use draws::Stop;
use plusplus_pick::{Trial, better};

// What a draw picks, with its potential.
fn try_draw(squares: &[f64], weights: &[f64], sums: &[f64], total: f64, d: u64) -> Trial
    requires weighed { Weighed squares.now weights.now × RunningSums sums.now weights.now }
    requires d_bound { d < spec.limit total (length weights.now) }
    ensures { result ≡ spec.trial (table squares.now (length weights.now)) (cells weights.now) total (length weights.now) d }
{
    let p = plusplus_pick::pick(sums, total, d);
    let x = plusplus_pick::potential(weights, lists::row_of(squares, weights.len(), p));
    Trial {
        potential: x,
        pick: p,
    }
}

// The trials of two draws.
#[derive(Drop)]
struct Two {
    first: Trial,
    second: Trial,
}

fn try_two(squares: &[f64], weights: &[f64], sums: &[f64], total: f64, c: u64, d: u64) -> Two
    requires weighed { Weighed squares.now weights.now × RunningSums sums.now weights.now × (total ≡ sum_to (cells weights.now) (length weights.now)) }
    requires c_bound { (c < spec.limit total (length weights.now)) × (d < spec.limit total (length weights.now)) }
    ensures { (result.first ≡ spec.trial (table squares.now (length weights.now)) (cells weights.now) total (length weights.now) c)
        × (result.second ≡ spec.trial (table squares.now (length weights.now)) (cells weights.now) total (length weights.now) d) }
{
    let m = weights.len();
    let p = plusplus_pick::pick(sums, total, c);
    let q = plusplus_pick::pick(sums, total, d);
    let x = plusplus_pick::two_potentials(
        weights,
        total,
        lists::row_of(squares, m, p),
        lists::row_of(squares, m, q),
    );
    Two {
        first: Trial {
            potential: x.first,
            pick: p,
        },
        second: Trial {
            potential: x.second,
            pick: q,
        },
    }
}

// The trials of four draws.
#[derive(Drop)]
struct Four {
    first: Trial,
    second: Trial,
    third: Trial,
    fourth: Trial,
}

fn try_four(
    squares: &[f64],
    weights: &[f64],
    sums: &[f64],
    total: f64,
    c: u64,
    d: u64,
    e: u64,
    f: u64,
) -> Four
    requires weighed { Weighed squares.now weights.now × RunningSums sums.now weights.now × (total ≡ sum_to (cells weights.now) (length weights.now)) }
    requires c_bound { (c < spec.limit total (length weights.now)) × (d < spec.limit total (length weights.now)) × (e < spec.limit total (length weights.now)) × (f < spec.limit total (length weights.now)) }
    ensures { (result.first ≡ spec.trial (table squares.now (length weights.now)) (cells weights.now) total (length weights.now) c)
        × (result.second ≡ spec.trial (table squares.now (length weights.now)) (cells weights.now) total (length weights.now) d)
        × (result.third ≡ spec.trial (table squares.now (length weights.now)) (cells weights.now) total (length weights.now) e)
        × (result.fourth ≡ spec.trial (table squares.now (length weights.now)) (cells weights.now) total (length weights.now) f) }
{
    let m = weights.len();
    let p = plusplus_pick::pick(sums, total, c);
    let q = plusplus_pick::pick(sums, total, d);
    let s = plusplus_pick::pick(sums, total, e);
    let t = plusplus_pick::pick(sums, total, f);
    let x = plusplus_pick::four_potentials(
        weights,
        total,
        lists::row_of(squares, m, p),
        lists::row_of(squares, m, q),
        lists::row_of(squares, m, s),
        lists::row_of(squares, m, t),
    );
    Four {
        first: Trial {
            potential: x.first,
            pick: p,
        },
        second: Trial {
            potential: x.second,
            pick: q,
        },
        third: Trial {
            potential: x.third,
            pick: s,
        },
        fourth: Trial {
            potential: x.fourth,
            pick: t,
        },
    }
}

// The best of b and the trial of the draw at place `from`, where that is below `end`.
fn last_trial(
    squares: &[f64],
    weights: &[f64],
    sums: &[f64],
    total: f64,
    draws: &[u64],
    from: usize,
    end: usize,
    b: Trial,
) -> Result<Trial, Stop>
    requires weighed { Weighed squares.now weights.now × RunningSums sums.now weights.now × (total ≡ sum_to (cells weights.now) (length weights.now)) }
    requires end_bound { (end ≤ from + 1) × (end ≤ length draws.now) }
    ensures { result ≡ tried_of (takes (spec.limit total (length weights.now))
        (against (table squares.now (length weights.now)) (cells weights.now) total (length weights.now)) (end - from) b from (drop from draws.now)) }
{
    if from >= end {
        return Ok(b);
    }
    let d = draws::draw_below(draws, from, plusplus_pick::limit(total, weights.len()))?;
    let t = try_draw(squares, weights, sums, total, d);
    Ok(better(b, t))
}

// The best of `first` and the trials of the draws from place `from` on, `more` of them, two at a time.
fn later_trials(
    squares: &[f64],
    weights: &[f64],
    sums: &[f64],
    total: f64,
    draws: &[u64],
    from: usize,
    more: usize,
    first: Trial,
) -> Result<Trial, Stop>
    requires weighed { Weighed squares.now weights.now × RunningSums sums.now weights.now × (total ≡ sum_to (cells weights.now) (length weights.now)) }
    requires more_in_bounds { from + more ≤ length draws.now }
    ensures { result ≡ tried_of (takes (spec.limit total (length weights.now))
        (against (table squares.now (length weights.now)) (cells weights.now) total (length weights.now)) more first from (drop from draws.now)) }
{
    let top = plusplus_pick::limit(total, weights.len());
    let end = from + more;
    let mut b = first;
    let mut i = from;
    while i + 1 < end {
        let c = draws::draw_below(draws, i, top)?;
        let d = draws::draw_below(draws, i + 1, top)?;
        let t = try_two(squares, weights, sums, total, c, d);
        b = better(better(b, t.first), t.second);
        i = i + 2;
    }
    last_trial(squares, weights, sums, total, draws, i, end, b)
}

// The best of the trials of the draw c and of the draws from place `from` on, `more` of them: the first two at a time too.
fn first_trials(
    squares: &[f64],
    weights: &[f64],
    sums: &[f64],
    total: f64,
    draws: &[u64],
    from: usize,
    more: usize,
    c: u64,
) -> Result<Trial, Stop>
    requires weighed { Weighed squares.now weights.now × RunningSums sums.now weights.now × (total ≡ sum_to (cells weights.now) (length weights.now)) }
    requires c_bound { (c < spec.limit total (length weights.now)) × (0 < more) × (from + more ≤ length draws.now) }
    ensures { result ≡ tried_of (takes (spec.limit total (length weights.now))
        (against (table squares.now (length weights.now)) (cells weights.now) total (length weights.now)) more
        (spec.trial (table squares.now (length weights.now)) (cells weights.now) total (length weights.now) c) from (drop from draws.now)) }
{
    let d = draws::draw_below(draws, from, plusplus_pick::limit(total, weights.len()))?;
    let t = try_two(squares, weights, sums, total, c, d);
    let b = better(t.first, t.second);
    later_trials(squares, weights, sums, total, draws, from + 1, more - 1, b)
}

// The best of the trials of the draw c and of the draws from place `from` on, `more` of them and three at least: the first four side by side.
fn four_trials(
    squares: &[f64],
    weights: &[f64],
    sums: &[f64],
    total: f64,
    draws: &[u64],
    from: usize,
    more: usize,
    c: u64,
) -> Result<Trial, Stop>
    requires weighed { Weighed squares.now weights.now × RunningSums sums.now weights.now × (total ≡ sum_to (cells weights.now) (length weights.now)) }
    requires c_bound { (c < spec.limit total (length weights.now)) × (3 ≤ more) × (from + more ≤ length draws.now) }
    ensures { result ≡ tried_of (takes (spec.limit total (length weights.now))
        (against (table squares.now (length weights.now)) (cells weights.now) total (length weights.now)) more
        (spec.trial (table squares.now (length weights.now)) (cells weights.now) total (length weights.now) c) from (drop from draws.now)) }
{
    let top = plusplus_pick::limit(total, weights.len());
    let d = draws::draw_below(draws, from, top)?;
    let e = draws::draw_below(draws, from + 1, top)?;
    let f = draws::draw_below(draws, from + 2, top)?;
    let t = try_four(squares, weights, sums, total, c, d, e, f);
    let b = better(better(better(t.first, t.second), t.third), t.fourth);
    later_trials(squares, weights, sums, total, draws, from + 3, more - 3, b)
}

// The best of `count` trials, with the draws from place `at` on, by the running weights and their total. Inner form: the list has so many draws there.
pub fn best_trial(
    squares: &[f64],
    weights: &[f64],
    sums: &[f64],
    total: f64,
    draws: &[u64],
    at: usize,
    count: usize,
) -> Result<Trial, Stop>
    requires weighed { Weighed squares.now weights.now × RunningSums sums.now weights.now × (total ≡ sum_to (cells weights.now) (length weights.now)) }
    requires le_count { (2 ≤ count) × (at + count ≤ length draws.now) }
    ensures { result ≡ tried_of (next_of (table squares.now (length weights.now)) (length weights.now) count weights.now at (drop at draws.now)) }
{
    let c = draws::draw_below(draws, at, plusplus_pick::limit(total, weights.len()))?;
    if count >= 4 {
        return four_trials(squares, weights, sums, total, draws, at + 1, count - 1, c);
    }
    first_trials(squares, weights, sums, total, draws, at + 1, count - 1, c)
}
