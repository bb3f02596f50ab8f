// k-means++ by a generator: the draws of each centre are taken just before its trials, when their kind is known, and the trials are those of the draws in a
// list. Inner forms.
#![tactic(auto)]

ghost use Rattle.std.specs.Prelude.{◌≡◌, true, false, ◌<◌, ◌≤◌, ◌+◌, ◌-◌, ◌*◌, ◌^◌, ◌∷◌, ◌++◌};
ghost use lib.ListN.{length};
ghost use Rattle.lists.specs.Lists.{cells, listed};
ghost use Rattle.draws.specs.Counts.{trials_of, seeding_of};
ghost use Rattle.plusplus_pick.specs.Potentials.{with};
ghost use Rattle.plusplus_trials.specs.Trials.{table, Weighed};
ghost use Rattle.rng_std.specs.Seeds.{key_of};
ghost use Rattle.rng_std.specs.Words.{word_of};
ghost use Rattle.rng_std.specs.States.{key_in, Holds, Moved, DrawnBy};
ghost use Rattle.plusplus_seeded.specs.Seeded.{place_of, draws_by, rule_of, centre_rule, centre_draws, centre_of, more_made, seed_made};
ghost use Rattle.plusplus_seeded.specs.Steps.{MayDraw, MaySeedFrom};
ghost use Rattle.plusplus_seeded.specs.Sources.{given, moved_on, RngOf, MaySupply, seed_draws, seed_next, SuppliedBy};
ghost use Rattle.plusplus.specs.Seeding.{seeding};
// A centre, and how many words are then taken.
#[derive(Drop)]
pub struct Picked {
    pub pick: usize,
    pub taken: u64,
}

// A draw for a trial: a share where the total is above 0, else an index.
fn draw_one(rng: &mut [u32], taken: u64, total: f64, m: usize) -> rng_std::Drawn
    requires { MayDraw rng.old taken m }
    ensures { DrawnBy (rule_of (word_of (key_in rng.old)) total m taken) result rng.old rng.new }
{
    if total > 0.0 {
        return rng_std::random_share(rng, taken);
    }
    rng_std::random_range(rng, taken, m as u32)
}

// The draws of one centre. It answers how many words are then taken.
fn draw_all(rng: &mut [u32], first: u64, total: f64, m: usize, draws: &mut [u64]) -> u64
    requires { MayDraw rng.old first m × (first + 2 * length draws.old < 2 ^ 60) }
    ensures { (draws.new ≡ draws_by (rule_of (word_of (key_in rng.old)) total m) (length draws.old) first)
        × (result ≡ place_of (rule_of (word_of (key_in rng.old)) total m) (length draws.old) first) × Moved rng.old result rng.new }
{
    let mut taken = first;
    for draw in draws.iter_mut() {
        let d = draw_one(rng, taken, total, m);
        *draw = d.value;
        taken = d.taken;
    }
    taken
}

// One centre more: its draws, and the best of their trials. `draws` has room for a draw for each trial; it holds anything before the call, and so do `sums`.
fn next_from(
    squares: &[f64],
    weights: &mut [f64],
    rng: &mut [u32],
    taken: u64,
    draws: &mut [u64],
    sums: &mut [f64],
) -> Picked
    requires weighed { Weighed squares.now weights.old × MayDraw rng.old taken (length weights.old) × (taken + 2 * length draws.old < 2 ^ 60) }
    requires in_bounds { (2 ≤ length draws.old) × (length sums.old ≡ length weights.old) }
    ensures pick_value { result.pick ≡ centre_of (word_of (key_in rng.old)) (table squares.now (length weights.old)) (length weights.old) (length draws.old) weights.old taken }
    ensures weights_after { weights.new ≡ listed (with (table squares.now (length weights.old)) (cells weights.old) result.pick) (length weights.old) }
    ensures taken_value { (result.taken ≡ place_of (centre_rule (word_of (key_in rng.old)) (table squares.now (length weights.old)) (length weights.old) (length draws.old) weights.old) (length draws.old) taken)
        × Moved rng.old result.taken rng.new }
{
    let m = weights.len();
    let count = draws.len();
    let total = plusplus_pick::sum_weights(weights, sums);
    let next = draw_all(rng, taken, total, m, draws);
    match plusplus::centre_by_sums(squares, weights, sums, total, draws, 0, count) {
        // never so: the generator's draws are in range
        Err(_stop) => Picked {
            pick: 0,
            taken: next,
        },
        Ok(b) => Picked {
            pick: b.pick,
            taken: next,
        },
    }
}

// The centres behind the first. The weights are those with the first as centre. It answers how many words are then taken.
fn more_from(
    squares: &[f64],
    rng: &mut [u32],
    first: u64,
    centres: &mut [usize],
    weights: &mut [f64],
    draws: &mut [u64],
    sums: &mut [f64],
) -> u64
    requires weighed { Weighed squares.now weights.old × MayDraw rng.old first (length weights.old) × (first < 2 ^ 59 + 2) × (length sums.old ≡ length weights.old) }
    requires in_bounds { (2 ≤ length centres.old) × (length centres.old ≤ 256) × (length draws.old ≡ trials_of (length centres.old)) }
    ensures { (centres.new ≡ lib.ListN.take 1 centres.old ++ (more_made (word_of (key_in rng.old)) (table squares.now (length weights.old)) (length weights.old) (trials_of (length centres.old))
        (length centres.old - 1) weights.old first).centres)
        × (result ≡ (more_made (word_of (key_in rng.old)) (table squares.now (length weights.old)) (length weights.old) (trials_of (length centres.old))
        (length centres.old - 1) weights.old first).next) × Moved rng.old result rng.new }
{
    let k = centres.len();
    let mut taken = first;
    for j in 1..k {
        let next = next_from(squares, weights, rng, taken, draws, sums);
        centres[j] = next.pick;
        taken = next.taken;
    }
    taken
}

// As many centres as the list holds, among the items of the table, by the words of the generator, of which `taken` are taken. It answers how many words are
// then taken. The lists hold anything before the call, and the weights after it.
pub fn seed_on(
    squares: &[f64],
    rng: &mut [u32],
    taken: u64,
    centres: &mut [usize],
    weights: &mut [f64],
) -> u64
    requires { MaySeedFrom squares.now (length weights.old) (length centres.old) taken × Holds taken rng.old }
    ensures { (centres.new ≡ (seed_made (word_of (key_in rng.old)) (table squares.now (length weights.old)) (length weights.old) (length centres.old) taken).centres)
        × (result ≡ (seed_made (word_of (key_in rng.old)) (table squares.now (length weights.old)) (length weights.old) (length centres.old) taken).next) × Moved rng.old result rng.new }
{
    let m = weights.len();
    let k = centres.len();
    let count = draws::trials(k);
    let first = rng_std::random_range(rng, taken, m as u32);
    let c = first.value as usize;
    centres[0] = c;
    lists::copy(lists::row_of(squares, m, c), weights);
    let mut draws = lists::buffer::<u64, 8>(0);
    let mut sums = lists::buffer::<f64, 256>(0.0);
    more_from(
        squares,
        rng,
        first.taken,
        centres,
        weights,
        &mut draws[..count],
        &mut sums[..m],
    )
}

// The generator of a seed, behind its first `taken` words, in a list that holds anything before the call. Where the draws come from a list it stays as it is.
pub fn start_rng(seeded: bool, seed: u64, taken: u64, rng: &mut [u32])
    requires { (length rng.old ≡ 72) × (taken < 2 ^ 62) }
    ensures { (seeded ≡ true → (key_in rng.new ≡ key_of seed) × Holds taken rng.new) × (seeded ≡ false → rng.new ≡ rng.old) }
{
    if seeded {
        rng_std::seed_from_u64(seed, taken, rng);
    }
}

// Where draws come from: a list, from place `at` on, or the generator of a seed, of which `taken` words are taken. `at` counts the draws in both cases.
#[derive(Drop)]
pub struct Source {
    pub at: usize,
    pub seeded: bool,
    pub seed: u64,
    pub taken: u64,
}

// As many centres as the list holds, among the items of the table, by the draws of the source, whose generator `rng` is. Answers the source behind the draws,
// or what ends the run. The other lists hold anything before
// the call, the weights after it too, and so do the centres where a draw stopped it.
pub fn seed_by(
    squares: &[f64],
    draws: &[u64],
    src: Source,
    centres: &mut [usize],
    weights: &mut [f64],
    rng: &mut [u32],
) -> Result<Source, draws::Stop>
    requires { MaySupply squares.now (length weights.old) (length centres.old) draws.now src × RngOf src rng.old }
    ensures supplied_by { SuppliedBy (seeding (table squares.now (length weights.old)) (length weights.old) (length centres.old) src.at
        (given src draws.now (seed_draws src (table squares.now (length weights.old)) (length weights.old) (length centres.old))))
        (moved_on src (seeding_of (length centres.old)) (seed_next src (table squares.now (length weights.old)) (length weights.old) (length centres.old)))
        result centres.new }
    ensures rng_of { RngOf (moved_on src (seeding_of (length centres.old)) (seed_next src (table squares.now (length weights.old)) (length weights.old) (length centres.old))) rng.new }
{
    let at = src.at;
    let k = centres.len();
    if src.seeded {
        let taken = seed_on(squares, rng, src.taken, centres, weights);
        return Ok(Source {
            at: at + draws::draws_of(k),
            seeded: true,
            seed: src.seed,
            taken,
        });
    }
    let next = plusplus::seed(squares, draws, at, centres, weights)?;
    Ok(Source {
        at: next,
        seeded: false,
        seed: src.seed,
        taken: src.taken,
    })
}
