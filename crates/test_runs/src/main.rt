// Runs recorded whole runs of the grouping and counts those that are answered otherwise than recorded.
// Groupings, 7, 8 and 9 are recorded from runs of the unchanged Rust on the case's draws; 1, 2, 4, 5 and 6, the rows that
// keep every list, are the table's.
// Standard input has one word a line, 16 hex digits. A case is twelve words, two lists and the expected answer:
// - rows, cols, repeat, the lengths of eight lists: cells, draws, order, sizes, scores, ordered matrix, working
//   doubles, working numbers; and the kind of the case, by its number in kinds.txt;
// - the cells as the bits of doubles, then the draws;
// - the number (0: a grouping), the place, the groups, the draws read; then order, sizes, scores and ordered matrix as
//   they stand after the call.
// Lent lists hold 999 or 7.0 in each cell before the call. specs/Runs.antt says when a case is answered as recorded.
// For a case that differs the program prints the number, place, groups and draws read, as expected and as found, then the
// case's number from 1, its kind, and the words from which to which it stands. harness/grouping/run.sh records the cases.
#![tactic(auto)]

ghost use Rattle.std.specs.Prelude.{◌<◌, ◌≤◌, ◌≡◌, length, replicate};
ghost use Rattle.onc.specs.Onc.{group_of};
ghost use Rattle.test_compared.specs.Compared.{seven};
ghost use Rattle.test_run_cases.specs.Cases.{right_run};
ghost use Rattle.test_runs.specs.Runs.{right_lists, right_case, counts_in};

use test_counts::Counts;
use test_run_cases::Case;

// Makes the call, and compares what it answers and leaves.
fn right_run(
    text: &[u8],
    c: Case,
    cells: &[f64],
    draws: &[u64],
    order: &mut [usize],
    sizes: &mut [usize],
    scores: &mut [f64],
    ordered: &mut [f64],
    floats: &mut [f64],
    numbers: &mut [usize],
) -> bool
    requires { (c.expected ≤ 94725) × (c.order ≤ 16) × (c.sizes ≤ 16) × (c.scores ≤ 16) }
    ensures { result ≡ right_run text.now c (group_of cells.now c.rows c.cols c.repeat draws.now (record {
      order = order.old;
      sizes = sizes.old;
      scores = scores.old;
      ordered = ordered.old;
      floats = floats.old;
      numbers = numbers.old;
    })) }
{
    let a = onc::get_onc_clusters_with_draws(
        cells, c.rows, c.cols, c.repeat, draws, order, sizes, scores, ordered, floats, numbers,
    );
    let right = test_run_cases::same_run(
        text, c, a, order, sizes, scores, ordered, floats, numbers,
    );
    test_run_cases::shown_answer(right, text, c.expected, a)
}

// The same, on working lists of the case's lengths.
fn right_worked(
    text: &[u8],
    c: Case,
    cells: &[f64],
    draws: &[u64],
    order: &mut [usize],
    sizes: &mut [usize],
    scores: &mut [f64],
    ordered: &mut [f64],
) -> bool
    requires { (c.expected ≤ 94725) × (c.order ≤ 16) × (c.sizes ≤ 16) × (c.scores ≤ 16) × (c.floats ≤ 4400) × (c.numbers ≤ 4000) }
    ensures { result ≡ right_run text.now c (group_of cells.now c.rows c.cols c.repeat draws.now (record {
      order = order.old;
      sizes = sizes.old;
      scores = scores.old;
      ordered = ordered.old;
      floats = replicate c.floats seven;
      numbers = replicate c.numbers 999;
    })) }
{
    let mut floats = lists::filled::<f64, 4400>(7.0);
    let mut numbers = lists::filled::<usize, 4000>(999);
    right_run(
        text,
        c,
        cells,
        draws,
        order,
        sizes,
        scores,
        ordered,
        &mut floats[..c.floats],
        &mut numbers[..c.numbers],
    )
}

// The same, on outputs of the case's lengths.
fn right_lists(text: &[u8], c: Case, cells: &[f64], draws: &[u64]) -> bool
    requires { (c.expected ≤ 94725) × (c.order ≤ 16) × (c.sizes ≤ 16) × (c.scores ≤ 16) × (c.floats ≤ 4400) × (c.numbers ≤ 4000) × (c.ordered ≤ 256) }
    ensures { result ≡ right_lists text.now c cells.now draws.now }
{
    let mut order = lists::filled::<usize, 16>(999);
    let mut sizes = lists::filled::<usize, 16>(999);
    let mut scores = lists::filled::<f64, 16>(7.0);
    let mut ordered = lists::filled::<f64, 256>(7.0);
    right_worked(
        text,
        c,
        cells,
        draws,
        &mut order[..c.order],
        &mut sizes[..c.sizes],
        &mut scores[..c.scores],
        &mut ordered[..c.ordered],
    )
}

// Reads the case's cells and draws, and runs it.
fn right_case(text: &[u8], at: usize, c: Case) -> bool
    requires at_bound { (at ≤ 92521) × (c.cells ≤ 144) × (c.draws ≤ 2048) }
    requires expected_bound { (c.expected ≤ 94725) × (c.order ≤ 16) × (c.sizes ≤ 16) × (c.scores ≤ 16) × (c.floats ≤ 4400) × (c.numbers ≤ 4000) × (c.ordered ≤ 256) }
    ensures { result ≡ right_case text.now at c }
{
    let first = at + 12;
    let second = first + c.cells;
    let cells = test_words::doubles_at::<144>(text, first, c.cells);
    let draws = test_words::draws_at::<2048>(text, second, c.draws);
    right_lists(text, c, &cells[..c.cells], &draws[..c.draws])
}

// Runs every case of the text, and reports those that differ.
fn run(text: &[u8]) -> Counts
    requires { length text.now ≤ 1572864 }
    ensures { result ≡ counts_in text.now }
{
    let words = text.len() / 17;
    let mut at = 0;
    let mut counts = Counts {
        cases: 0,
        differ: 0,
    };
    while at < words {
        let c = test_run_cases::read_case(text, at);
        let right = right_case(text, at, c);
        counts = test_counts::counted(counts, right, c.kind, at, c.next, words);
        at = c.next;
    }
    counts
}

fn main() {
    let mut text = lists::buffer::<u8, 1572864>(0);
    let n = io::read_full(0, &mut text);
    let counts = run(&text[..n]);
    test_counts::summary(counts, n, text.len());
}
