// Runs recorded cases of the k-means leaves and counts those that are answered otherwise than recorded.
// Centres, labels and 8 are recorded from runs of the unchanged Rust on the case's draws; 2, 4, 5, 6, 7, 10 and 29 are the
// table's.
// Standard input has one word a line, 16 hex digits. A case is eight words, two lists and the expected answer:
// - the leaf (1 kmeans_plus_plus, 2 lloyd, 3 kmeans_labels), n, k, and the lengths of five lists: points, draws or centres,
//   output, working doubles, working numbers. For 2 the group count is the count of centres, whatever k is;
// - the points as the bits of doubles, then the draws or centres;
// - the number (0: not refused), the place, the draws read, and the output list.
// Lent lists hold 999 or 7.0 in each cell before the call. harness/kmeans/run.sh records the cases, and specs/Cases.antt
// says when one is answered as recorded. For a case that differs the program prints the number, place and draws read, as
// expected and as found, then the case's number from 1, its leaf as the kind, and the words from which to which it stands.
#![tactic(auto)]

ghost use Rattle.std.specs.Prelude.{◌<◌, ◌≤◌, ◌≡◌, [], ◌∷◌, length};
ghost use Rattle.kmeans_answers.specs.Answers.{refusal_of, read_of};
ghost use Rattle.test_kmeans.specs.Cases.{case_at, leaf_of, same_answer, right_leaf, right_lists, right_case, counts_in};

use kmeans_answers::Kmeans;
use test_counts::Counts;

// The sizes of a case, the word at which its expected answer starts, and the one at which the next case does.
#[derive(Clone, Copy)]
struct Case {
    leaf: u64,
    n: usize,
    k: usize,
    points: usize,
    list: usize,
    out: usize,
    floats: usize,
    numbers: usize,
    expected: usize,
    next: usize,
}

// The case at `at`: eight words, and the expected answer after its two lists.
fn read_case(text: &[u8], at: usize) -> Case
    requires { at ≤ 20000 }
    ensures value { result ≡ case_at text.now at }
    ensures points_bound { (result.points ≤ 256) × (result.list ≤ 64) × (result.out ≤ 64) × (result.floats ≤ 6400) × (result.numbers ≤ 5400) × (result.expected ≤ 20328) × (at < result.next) }
{
    let points = test_words::size_from(text, at, 3, 256);
    let list = test_words::size_from(text, at, 4, 64);
    let out = test_words::size_from(text, at, 5, 64);
    let expected = at + 8 + points + list;
    Case {
        leaf: test_words::word_from(text, at, 0),
        n: test_words::word_from(text, at, 1) as usize,
        k: test_words::word_from(text, at, 2) as usize,
        points,
        list,
        out,
        floats: test_words::size_from(text, at, 6, 6400),
        numbers: test_words::size_from(text, at, 7, 5400),
        expected,
        next: expected + 3 + out,
    }
}

// What the case's leaf answers.
fn call(
    c: Case,
    points: &[f64],
    draws: &[u64],
    centres: &[usize],
    out: &mut [usize],
    floats: &mut [f64],
    numbers: &mut [usize],
) -> Kmeans
    ensures { record { answer = refusal_of result; read = read_of result; out = out.new; floats = floats.new; numbers = numbers.new }
        ≡ leaf_of c points.now draws.now centres.now out.old floats.old numbers.old }
{
    if c.leaf == 1 {
        return kmeans_plus_plus::kmeans_plus_plus(points, c.n, c.k, draws, out, floats, numbers);
    }
    if c.leaf == 2 {
        return kmeans_lloyd::lloyd(points, c.n, centres, out, floats, numbers);
    }
    kmeans_labels::kmeans_labels(points, c.n, c.k, draws, out, floats, numbers)
}

// The answer's number, place and draws read.
fn answer_of(a: Kmeans) -> [usize; 3]
    ensures { result ≡ (refusal_of a).number ∷ (refusal_of a).place ∷ read_of a ∷ [] }
{
    [
        kmeans_answers::number_of(a),
        kmeans_answers::place_of(a),
        kmeans_answers::read_of(a),
    ]
}

// Whether the text has this answer's number, place and draws read at `expected`.
fn same_answer(text: &[u8], expected: usize, a: Kmeans) -> bool
    ensures { result ≡ same_answer text.now expected (refusal_of a) (read_of a) }
{
    let answer = answer_of(a);
    test_compared::same_numbers(text, expected, &answer)
}

// Gives `right` back. If it is false, prints these three, as expected and as found.
fn shown_answer(right: bool, text: &[u8], expected: usize, a: Kmeans) -> bool
    ensures { result ≡ right }
{
    let answer = answer_of(a);
    test_counts::shown(right, text, expected, &answer)
}

// Whether a leaf's answer and the lists that it left are as recorded.
fn same_leaf(
    text: &[u8],
    c: Case,
    a: Kmeans,
    out: &[usize],
    floats: &[f64],
    numbers: &[usize],
) -> bool
    requires { c.expected ≤ 20328 }
    ensures { result ≡ right_leaf text.now c (record {
      answer = refusal_of a;
      read = read_of a;
      out = out.now;
      floats = floats.now;
      numbers = numbers.now;
    }) }
{
    let names = test_compared::names_wiped(kmeans_answers::number_of(a), c.n);
    same_answer(text, c.expected, a)
        && test_compared::same_numbers(text, c.expected + 3, out)
        && test_compared::left_lists(names, floats, numbers)
}

// Runs a leaf, and compares what it answers and leaves.
fn right_lists(
    text: &[u8],
    c: Case,
    points: &[f64],
    draws: &[u64],
    centres: &[usize],
    out: &mut [usize],
    floats: &mut [f64],
    numbers: &mut [usize],
) -> bool
    requires { c.expected ≤ 20328 }
    ensures { result ≡ right_leaf text.now c (leaf_of c points.now draws.now centres.now out.old floats.old numbers.old) }
{
    let a = call(c, points, draws, centres, out, floats, numbers);
    let right = same_leaf(text, c, a, out, floats, numbers);
    shown_answer(right, text, c.expected, a)
}

// The same, on lists of the case's sizes.
fn right_list(text: &[u8], c: Case, points: &[f64], draws: &[u64], centres: &[usize]) -> bool
    requires { (c.out ≤ 64) × (c.floats ≤ 6400) × (c.numbers ≤ 5400) × (c.expected ≤ 20328) }
    ensures { result ≡ right_lists text.now c points.now draws.now centres.now }
{
    let mut out = lists::filled::<usize, 64>(999);
    let mut floats = lists::filled::<f64, 6400>(7.0);
    let mut numbers = lists::filled::<usize, 5400>(999);
    right_lists(
        text,
        c,
        points,
        draws,
        centres,
        &mut out[..c.out],
        &mut floats[..c.floats],
        &mut numbers[..c.numbers],
    )
}

// Reads the case's lists, the second both as draws and as centres, and runs it.
fn right_case(text: &[u8], at: usize, c: Case) -> bool
    requires { (at ≤ 20000) × (c.points ≤ 256) × (c.list ≤ 64) × (c.out ≤ 64) × (c.floats ≤ 6400) × (c.numbers ≤ 5400) × (c.expected ≤ 20328) }
    ensures { result ≡ right_case text.now at c }
{
    let first = at + 8;
    let second = first + c.points;
    let points = test_words::doubles_at::<256>(text, first, c.points);
    let draws = test_words::draws_at::<64>(text, second, c.list);
    let centres = test_words::numbers_at::<64>(text, second, c.list);
    right_list(
        text,
        c,
        &points[..c.points],
        &draws[..c.list],
        &centres[..c.list],
    )
}

// Runs every case of the text, and reports those that differ.
fn run(text: &[u8]) -> Counts
    requires { length text.now ≤ 262144 }
    ensures { result ≡ counts_in text.now }
{
    let words = text.len() / 17;
    let mut at = 0;
    let mut counts = Counts {
        cases: 0,
        differ: 0,
    };
    while at < words {
        let c = read_case(text, at);
        let right = right_case(text, at, c);
        counts = test_counts::counted(counts, right, c.leaf, at, c.next, words);
        at = c.next;
    }
    counts
}

fn main() {
    let mut text = lists::buffer::<u8, 262144>(0);
    let n = io::read_full(0, &mut text);
    let counts = run(&text[..n]);
    test_counts::summary(counts, n, text.len());
}
