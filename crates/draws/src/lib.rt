// Draws: how many a seeding and a round take, taking one from a list, a share, and what can end a run.
#![tactic(auto)]

ghost use Rattle.std.specs.Prelude.{◌≡◌, ◌+◌, ◌<◌, ◌≤◌, length, drop};
ghost use Rattle.draws.specs.Counts.{trials_of, seeding_of, tries, count_of};
ghost use Rattle.draws.specs.Bounds.{later_of};
ghost use Rattle.draws.specs.Draws.{one_draw, share};
ghost use Rattle.draws.specs.Stops.{stop_number, stop_place, draw_of};

// What can end a run: a 33rd round, too few draws (with the draws read so far), a draw out of range (with its place). By the
// definition a round without a candidate would too, but no call has one: 3 is never returned (crates/onc/specs/Certain.antt).
#[derive(Clone, Copy)]
pub enum Stop {
    Rounds,
    Short(usize),
    DrawOutOfRange(usize),
    ClusteringFailed,
}

// The table's number.
pub fn stop_number(s: Stop) -> usize
    ensures { result ≡ stop_number s }
{
    match s {
        Stop::Rounds => 9,
        Stop::Short(_read) => 7,
        Stop::DrawOutOfRange(_p) => 8,
        Stop::ClusteringFailed => 3,
    }
}

// The table's place; 0 where it names none.
pub fn stop_place(s: Stop) -> usize
    ensures { result ≡ stop_place s }
{
    match s {
        Stop::Rounds => 0,
        Stop::Short(read) => read,
        Stop::DrawOutOfRange(p) => p,
        Stop::ClusteringFailed => 0,
    }
}

// The trials for each centre after the first, of k centres.
pub fn trials(k: usize) -> usize
    ensures { result ≡ trials_of k }
{
    if k < 3 {
        return 2;
    }
    if k < 8 {
        return 3;
    }
    if k < 21 {
        return 4;
    }
    if k < 55 {
        return 5;
    }
    if k < 149 {
        return 6;
    }
    7
}

// One more than the greatest number of groups that is tried. Inner form.
pub fn groups_end(m: usize) -> usize
    requires { 2 ≤ m }
    ensures { result ≡ tries m + 2 }
{
    let most = m - 1;
    if most < 2 {
        return 3;
    }
    most + 1
}

// The draws of one seeding with k centres. Inner form: k from 1 to 256.
pub fn draws_of(k: usize) -> usize
    requires { (1 ≤ k) × (k ≤ 256) }
    ensures { result ≡ seeding_of k }
{
    let count = trials(k);
    1 + (k - 1) * count
}

// How many centres come after the first, in all, in one seeding each with `least` to `most` centres: least - 1 up to most - 1, an
// arithmetic series. Inner form: `least` from 2 on, `most` up to 255; at most 255 terms of at most 255.
fn later_centres(least: usize, most: usize) -> usize
    requires { (2 ≤ least) × (most ≤ 255) }
    ensures { (result ≡ later_of least most) × (result ≤ 65025) }
{
    if most < least {
        return 0;
    }
    let terms = most + 1 - least;
    terms * (least + most - 2) / 2
}

// The draws of a round of m names, for one repeat: an index draw for each seeding, two trials for each centre after the first, and one
// trial more from each of the five bounds of `trials` on. Inner form: m from 2 to 256.
pub fn draws_for(m: usize) -> u64
    requires { (2 ≤ m) × (m ≤ 256) }
    ensures { result ≡ count_of m }
{
    let most = groups_end(m) - 1;
    let two = 2 * later_centres(2, most);
    let more = later_centres(3, most)
        + later_centres(8, most)
        + later_centres(21, most)
        + later_centres(55, most)
        + later_centres(149, most);
    (most - 1 + two + more) as u64
}

// The draw at place `at`, which must be below the limit, or what ends the run. Inner form: the list has one there.
pub fn draw_below(draws: &[u64], at: usize, limit: u64) -> Result<u64, Stop>
    requires { at < length draws.now }
    ensures { result ≡ draw_of (one_draw limit at (drop at draws.now)) }
{
    let d = draws[at];
    if limit <= d {
        return Err(Stop::DrawOutOfRange(at));
    }
    Ok(d)
}

// A draw below 2^53 as a share: itself over 2^53.
pub fn share_of(d: u64) -> f64
    ensures { result ≡ share d }
{
    std::num::nearest_u64_to_f64(d) / 9007199254740992.0
}
