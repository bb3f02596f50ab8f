// The grouping, with the draws in a list or by a seed, as other languages call it. exports_statistics has the other calls for them.
#![tactic(auto)]

ghost use Rattle.std.specs.Prelude.{◌≡◌, false, length};
ghost use Rattle.onc_checks.specs.Checks.{shape_of};
ghost use Rattle.onc.specs.Onc.{group_of, default_seed, seeded_of};
ghost use Rattle.exports.specs.Grouping.{grouping_reported};

#[unsafe(no_mangle)]
pub extern "C" fn onc_get_onc_clusters_with_draws(
    book: &[f64],
    rows: usize,
    cols: usize,
    repeat: usize,
    draws: &[u64],
    order: &mut [usize],
    sizes: &mut [usize],
    scores: &mut [f64],
    ordered: &mut [f64],
    floats: &mut [f64],
    numbers: &mut [usize],
    answer: &mut [usize],
) -> usize
    ensures { record {
      number = result;
      answer = answer.new;
      lists = record {
        order = order.new;
        sizes = sizes.new;
        scores = scores.new;
        ordered = ordered.new;
        floats = floats.new;
        numbers = numbers.new;
      };
    }
        ≡ grouping_reported (shape_of repeat rows cols (length book.now) false) (group_of book.now rows cols repeat draws.now (record {
          order = order.old;
          sizes = sizes.old;
          scores = scores.old;
          ordered = ordered.old;
          floats = floats.old;
          numbers = numbers.old;
        }))
        answer.old (record {
          order = order.old;
          sizes = sizes.old;
          scores = scores.old;
          ordered = ordered.old;
          floats = floats.old;
          numbers = numbers.old;
        }) }
{
    let refused = exports_reports::grouping_refused(repeat, rows, cols, book.len(), answer.len());
    if refused != 0 {
        return refused;
    }
    let a = onc::get_onc_clusters_with_draws(
        book, rows, cols, repeat, draws, order, sizes, scores, ordered, floats, numbers,
    );
    exports_reports::report_grouping(a, answer)
}

// By a seed.
#[unsafe(no_mangle)]
pub extern "C" fn onc_get_onc_clusters_with_seed(
    book: &[f64],
    rows: usize,
    cols: usize,
    repeat: usize,
    seed: u64,
    order: &mut [usize],
    sizes: &mut [usize],
    scores: &mut [f64],
    ordered: &mut [f64],
    floats: &mut [f64],
    numbers: &mut [usize],
    answer: &mut [usize],
) -> usize
    ensures { record {
      number = result;
      answer = answer.new;
      lists = record {
        order = order.new;
        sizes = sizes.new;
        scores = scores.new;
        ordered = ordered.new;
        floats = floats.new;
        numbers = numbers.new;
      };
    }
        ≡ grouping_reported (shape_of repeat rows cols (length book.now) false) (seeded_of book.now rows cols repeat seed (record {
          order = order.old;
          sizes = sizes.old;
          scores = scores.old;
          ordered = ordered.old;
          floats = floats.old;
          numbers = numbers.old;
        }))
        answer.old (record {
          order = order.old;
          sizes = sizes.old;
          scores = scores.old;
          ordered = ordered.old;
          floats = floats.old;
          numbers = numbers.old;
        }) }
{
    let refusal = exports_reports::grouping_refused(repeat, rows, cols, book.len(), answer.len());
    if refusal != 0 {
        return refusal;
    }
    let a = onc::get_onc_clusters_with_seed(
        book, rows, cols, repeat, seed, order, sizes, scores, ordered, floats, numbers,
    );
    exports_reports::report_grouping(a, answer)
}

// By the seed 42.
#[unsafe(no_mangle)]
pub extern "C" fn onc_get_onc_clusters(
    book: &[f64],
    rows: usize,
    cols: usize,
    repeat: usize,
    order: &mut [usize],
    sizes: &mut [usize],
    scores: &mut [f64],
    ordered: &mut [f64],
    floats: &mut [f64],
    numbers: &mut [usize],
    answer: &mut [usize],
) -> usize
    ensures { record {
      number = result;
      answer = answer.new;
      lists = record {
        order = order.new;
        sizes = sizes.new;
        scores = scores.new;
        ordered = ordered.new;
        floats = floats.new;
        numbers = numbers.new;
      };
    }
        ≡ grouping_reported (shape_of repeat rows cols (length book.now) false) (seeded_of book.now rows cols repeat default_seed (record {
          order = order.old;
          sizes = sizes.old;
          scores = scores.old;
          ordered = ordered.old;
          floats = floats.old;
          numbers = numbers.old;
        }))
        answer.old (record {
          order = order.old;
          sizes = sizes.old;
          scores = scores.old;
          ordered = ordered.old;
          floats = floats.old;
          numbers = numbers.old;
        }) }
{
    let stopped = exports_reports::grouping_refused(repeat, rows, cols, book.len(), answer.len());
    if stopped != 0 {
        return stopped;
    }
    let a = onc::get_onc_clusters(
        book, rows, cols, repeat, order, sizes, scores, ordered, floats, numbers,
    );
    exports_reports::report_grouping(a, answer)
}
