// The grouping of a book of correlations, with the draws in a list or by a seed.
#![tactic(auto)]

ghost use Rattle.std.specs.Prelude.{◌≡◌};
ghost use Rattle.onc_answers.specs.Answers.{answer_of};
ghost use Rattle.onc_run.specs.Run.{draws_of};
ghost use Rattle.onc.specs.Onc.{group_of, default_seed, seeded_of};

use onc_answers::Onc;

// The grouping by the draws of the list, or by those of a seed. A refusal leaves the outputs as they were.
fn group(
    book: &[f64],
    rows: usize,
    cols: usize,
    repeat: usize,
    draws: &[u64],
    seeded: bool,
    seed: u64,
    order: &mut [usize],
    sizes: &mut [usize],
    scores: &mut [f64],
    ordered: &mut [f64],
    floats: &mut [f64],
    numbers: &mut [usize],
) -> Onc
    ensures { record {
      answer = answer_of result;
      lists = record {
        order = order.new;
        sizes = sizes.new;
        scores = scores.new;
        ordered = ordered.new;
        floats = floats.new;
        numbers = numbers.new;
      };
    }
        ≡ group_of book.now rows cols repeat (draws_of seeded seed book.now rows repeat draws.now) (record {
          order = order.old;
          sizes = sizes.old;
          scores = scores.old;
          ordered = ordered.old;
          floats = floats.old;
          numbers = numbers.old;
        }) }
{
    let fits = onc_checks::lists_fit(
        rows,
        order.len(),
        sizes.len(),
        scores.len(),
        ordered.len(),
        floats.len(),
        numbers.len(),
    );
    onc_checks::check(repeat, rows, cols, book.len(), fits)?;
    onc_run::finish(
        book, rows, repeat, draws, seeded, seed, order, sizes, scores, ordered, floats, numbers,
    )
}

// The groups of the names of a book of rows times cols correlations, by k-means for every number of groups, `repeat` times each, the best by
// silhouette t-stat, and weak groups clustered again. A refusal leaves the outputs as they were.
pub fn get_onc_clusters_with_draws(
    book: &[f64],
    rows: usize,
    cols: usize,
    repeat: usize,
    draws: &[u64],
    order: &mut [usize],
    sizes: &mut [usize],
    scores: &mut [f64],
    ordered: &mut [f64],
    floats: &mut [f64],
    numbers: &mut [usize],
) -> Onc
    ensures { record {
      answer = answer_of result;
      lists = record {
        order = order.new;
        sizes = sizes.new;
        scores = scores.new;
        ordered = ordered.new;
        floats = floats.new;
        numbers = numbers.new;
      };
    }
        ≡ group_of book.now rows cols repeat draws.now (record {
          order = order.old;
          sizes = sizes.old;
          scores = scores.old;
          ordered = ordered.old;
          floats = floats.old;
          numbers = numbers.old;
        }) }
{
    group(
        book, rows, cols, repeat, draws, false, 0, order, sizes, scores, ordered, floats, numbers,
    )
}

// The same with the draws that the generator of a seed gives along the run.
pub fn get_onc_clusters_with_seed(
    book: &[f64],
    rows: usize,
    cols: usize,
    repeat: usize,
    seed: u64,
    order: &mut [usize],
    sizes: &mut [usize],
    scores: &mut [f64],
    ordered: &mut [f64],
    floats: &mut [f64],
    numbers: &mut [usize],
) -> Onc
    ensures { record {
      answer = answer_of result;
      lists = record {
        order = order.new;
        sizes = sizes.new;
        scores = scores.new;
        ordered = ordered.new;
        floats = floats.new;
        numbers = numbers.new;
      };
    }
        ≡ seeded_of book.now rows cols repeat seed (record {
          order = order.old;
          sizes = sizes.old;
          scores = scores.old;
          ordered = ordered.old;
          floats = floats.old;
          numbers = numbers.old;
        }) }
{
    let none = [0; 1];
    group(
        book,
        rows,
        cols,
        repeat,
        &none[..],
        true,
        seed,
        order,
        sizes,
        scores,
        ordered,
        floats,
        numbers,
    )
}

// The same with the seed 42.
pub fn get_onc_clusters(
    book: &[f64],
    rows: usize,
    cols: usize,
    repeat: usize,
    order: &mut [usize],
    sizes: &mut [usize],
    scores: &mut [f64],
    ordered: &mut [f64],
    floats: &mut [f64],
    numbers: &mut [usize],
) -> Onc
    ensures { record {
      answer = answer_of result;
      lists = record {
        order = order.new;
        sizes = sizes.new;
        scores = scores.new;
        ordered = ordered.new;
        floats = floats.new;
        numbers = numbers.new;
      };
    }
        ≡ seeded_of book.now rows cols repeat default_seed (record {
          order = order.old;
          sizes = sizes.old;
          scores = scores.old;
          ordered = ordered.old;
          floats = floats.old;
          numbers = numbers.old;
        }) }
{
    get_onc_clusters_with_seed(
        book, rows, cols, repeat, 42, order, sizes, scores, ordered, floats, numbers,
    )
}
