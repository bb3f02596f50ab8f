// A recorded run of the grouping: the case in the text, and whether its answer and the lists that it left are as recorded. Inner forms, for
// `test_runs` and `test_seeds`, whose first lines say how a case stands in the text.
#![tactic(auto)]

ghost use Rattle.std.specs.Prelude.{◌<◌, ◌≤◌, ◌≡◌, [], ◌∷◌};
ghost use Rattle.onc_answers.specs.Answers.{answer_of};
ghost use Rattle.test_run_cases.specs.Cases.{case_at, same_answer, same_outputs, right_run};

use onc_answers::Onc;

// The sizes of a case, the word at which its expected answer starts, and the one at which the next case does.
#[derive(Clone, Copy)]
pub struct Case {
    pub rows: usize,
    pub cols: usize,
    pub repeat: usize,
    pub cells: usize,
    pub draws: usize,
    pub order: usize,
    pub sizes: usize,
    pub scores: usize,
    pub ordered: usize,
    pub floats: usize,
    pub numbers: usize,
    pub kind: u64,
    pub expected: usize,
    pub next: usize,
}

// The case at `at`: twelve words, and the expected answer after its cells and draws.
pub fn read_case(text: &[u8], at: usize) -> Case
    requires { at ≤ 92521 }
    ensures value { result ≡ case_at text.now at }
    ensures cells_bound { (result.cells ≤ 144) × (result.draws ≤ 2048) × (result.order ≤ 16) × (result.sizes ≤ 16) × (result.scores ≤ 16) × (result.ordered ≤ 256) × (result.floats ≤ 4400) × (result.numbers ≤ 4000)
        × (result.expected ≤ 94725) × (at < result.next) }
{
    let cells = test_words::size_from(text, at, 3, 144);
    let draws = test_words::size_from(text, at, 4, 2048);
    let order = test_words::size_from(text, at, 5, 16);
    let sizes = test_words::size_from(text, at, 6, 16);
    let scores = test_words::size_from(text, at, 7, 16);
    let ordered = test_words::size_from(text, at, 8, 256);
    let expected = at + 12 + cells + draws;
    Case {
        rows: test_words::word_from(text, at, 0) as usize,
        cols: test_words::word_from(text, at, 1) as usize,
        repeat: test_words::word_from(text, at, 2) as usize,
        cells,
        draws,
        order,
        sizes,
        scores,
        ordered,
        floats: test_words::size_from(text, at, 9, 4400),
        numbers: test_words::size_from(text, at, 10, 4000),
        kind: test_words::word_from(text, at, 11),
        expected,
        next: expected + 4 + order + sizes + scores + ordered,
    }
}

// The answer's number, place, groups and draws read.
fn answer_of(a: Onc) -> [usize; 4]
    ensures { result ≡ (answer_of a).refused.number ∷ (answer_of a).refused.place ∷ (answer_of a).groups ∷ (answer_of a).read ∷ [] }
{
    [
        onc_answers::number_of(a),
        onc_answers::place_of(a),
        onc_answers::groups_of(a),
        onc_answers::read_of(a),
    ]
}

// Whether the text has this answer's number, place, groups and draws read at `expected`.
pub fn same_answer(text: &[u8], expected: usize, a: Onc) -> bool
    ensures { result ≡ same_answer text.now expected (answer_of a) }
{
    let answer = answer_of(a);
    test_compared::same_numbers(text, expected, &answer)
}

// Gives `right` back. If it is false, prints these four, as expected and as found.
pub fn shown_answer(right: bool, text: &[u8], expected: usize, a: Onc) -> bool
    ensures { result ≡ right }
{
    let answer = answer_of(a);
    test_counts::shown(right, text, expected, &answer)
}

// Whether the text has these outputs behind that, one after the other.
#[tactic(auto, using(std::proofs::lemmas::Bool::Decides::nat_tests), unfolding(crate::specs::Cases::same_outputs))]
pub fn same_outputs(
    text: &[u8],
    c: Case,
    order: &[usize],
    sizes: &[usize],
    scores: &[f64],
    ordered: &[f64],
) -> bool
    requires { (c.expected ≤ 94725) × (c.order ≤ 16) × (c.sizes ≤ 16) × (c.scores ≤ 16) }
    ensures { result ≡ same_outputs text.now c order.now sizes.now scores.now ordered.now }
{
    let order_at = c.expected + 4;
    let sizes_at = order_at + c.order;
    let scores_at = sizes_at + c.sizes;
    test_compared::same_numbers(text, order_at, order)
        && test_compared::same_numbers(text, sizes_at, sizes)
        && test_compared::same_doubles(text, scores_at, scores)
        && test_compared::same_doubles(text, scores_at + c.scores, ordered)
}

// Whether a run's answer and the lists that it left are as recorded.
#[tactic(auto, using(std::proofs::lemmas::Bool::Decides::nat_tests), unfolding(crate::specs::Cases::right_run))]
pub fn same_run(
    text: &[u8],
    c: Case,
    a: Onc,
    order: &[usize],
    sizes: &[usize],
    scores: &[f64],
    ordered: &[f64],
    floats: &[f64],
    numbers: &[usize],
) -> bool
    requires { (c.expected ≤ 94725) × (c.order ≤ 16) × (c.sizes ≤ 16) × (c.scores ≤ 16) }
    ensures { result ≡ right_run text.now c (record {
      answer = answer_of a;
      lists = record {
        order = order.now;
        sizes = sizes.now;
        scores = scores.now;
        ordered = ordered.now;
        floats = floats.now;
        numbers = numbers.now;
      };
    }) }
{
    let names = test_compared::names_wiped(onc_answers::number_of(a), c.rows);
    same_answer(text, c.expected, a)
        && same_outputs(text, c, order, sizes, scores, ordered)
        && test_compared::left_lists(names, floats, numbers)
}
