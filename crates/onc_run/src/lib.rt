// A run within the limits of a call: the rounds, the ordered matrix, and the working lists wiped. Inner forms, for the public call.
#![tactic(auto)]

ghost use Rattle.std.specs.Prelude.{◌≡◌, ◌*◌, length};
ghost use Rattle.lists.specs.Lists.{listed};
ghost use Rattle.onc_answers.specs.Answers.{answer_of};
ghost use Rattle.onc_run.specs.Run.{Limits, run_of, draws_of, ran};
ghost use Rattle.onc_run.specs.Steps.{Ran};

use draws::Stop;
use onc_answers::{Grouped, Onc};
use plusplus_seeded::Source;
use round_top::Top;

// 0, 1, 2, and so on.
fn count_up(xs: &mut [usize])
    ensures { xs.new ≡ listed (λ i. i) (length xs.old) }
{
    let n = xs.len();
    for i in 0..n {
        xs[i] = i;
    }
}

// Where the draws come from, before the first is taken: the list's first place, or the first word of the seed's generator.
fn first_source(seeded: bool, seed: u64) -> Source
    ensures { result ≡ record { at = 0; seeded = seeded; seed = seed; taken = 0 } }
{
    Source {
        at: 0,
        seeded,
        seed,
        taken: 0,
    }
}

// The rounds, over all names at first, by the draws of the list or of a seed; the working lists hold anything afterwards.
fn run(
    book: &[f64],
    n: usize,
    repeat: usize,
    draws: &[u64],
    seeded: bool,
    seed: u64,
    order: &mut [usize],
    sizes: &mut [usize],
    scores: &mut [f64],
    floats: &mut [f64],
    numbers: &mut [usize],
) -> Result<Top, Stop>
    requires { Limits book.now n repeat (length order.old) (length sizes.old) (length scores.old) (length floats.old) (length numbers.old) }
    ensures { Ran (run_of book.now n repeat (draws_of seeded seed book.now n repeat draws.now)) n result order.old order.new sizes.old sizes.new
        scores.old scores.new floats.old floats.new numbers.old numbers.new }
{
    count_up(&mut numbers[..n]);
    let src = first_source(seeded, seed);
    round_top::cluster_kmeans_top(
        book, n, repeat, draws, src, 32, order, sizes, scores, numbers, floats,
    )
}

// The run, its ordered matrix, and the working lists wiped. Inner form.
pub fn finish(
    book: &[f64],
    n: usize,
    repeat: usize,
    draws: &[u64],
    seeded: bool,
    seed: u64,
    order: &mut [usize],
    sizes: &mut [usize],
    scores: &mut [f64],
    ordered: &mut [f64],
    floats: &mut [f64],
    numbers: &mut [usize],
) -> Onc
    requires { Limits book.now n repeat (length order.old) (length sizes.old) (length scores.old) (length floats.old) (length numbers.old) × (length ordered.old ≡ n * n) }
    ensures { record {
      answer = answer_of result;
      lists = record {
        order = order.new;
        sizes = sizes.new;
        scores = scores.new;
        ordered = ordered.new;
        floats = floats.new;
        numbers = numbers.new;
      };
    }
        ≡ ran book.now n (run_of book.now n repeat (draws_of seeded seed book.now n repeat draws.now)) (record {
          order = order.old;
          sizes = sizes.old;
          scores = scores.old;
          ordered = ordered.old;
          floats = floats.old;
          numbers = numbers.old;
        }) }
{
    let ran = run(
        book, n, repeat, draws, seeded, seed, order, sizes, scores, floats, numbers,
    );
    kmeans_answers::wipe(n, floats, numbers);
    let top = ran?;
    book::cells_through(book, n, order, ordered);
    Ok(Grouped {
        groups: top.groups,
        draws: top.read,
    })
}
