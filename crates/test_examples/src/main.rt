// Runs recorded cases through the leaves and counts those whose answer differs.
// Standard input has one word a line, 16 hex digits. A case is eight words (leaf, n or ddof, the lengths of the two input
// lists, of the output and of the working list, two items), the two lists, then the expected number, place, count of
// values and values. harness/vectors.py writes the cases from definitions of its own, and specs/Cases.antt says when one
// is answered as expected. For a case that differs the program prints the number, place and count of values, as expected
// and as found, then the case's number from 1, its leaf as the kind, and the words from which to which it stands. Where
// only the working list is not as it must be, the line starts with the case's number.
#![tactic(auto)]

ghost use Rattle.std.specs.Prelude.{◌+◌, ◌<◌, ◌≤◌, ◌≡◌, ◌&&◌, length, replicate};
ghost use Rattle.refusals.specs.Table.{refusal_of};
ghost use Rattle.stats.specs.Average.{averaged_of};
ghost use Rattle.test_compared.specs.Compared.{seven, same_numbers, same_doubles};
ghost use Rattle.test_examples.specs.Cases.{case_at, average_of, measured_of, measured_by, first_root, half, value_of, list_of, names_of, same_outcome, right_value, right_leaf, right_lists, right_case, counts_in};

use refusals::{Answer, Cause};
use stats::Average;
use test_counts::Counts;

// A value, or none, or why it is refused.
type Valued = Result<Option<f64>, Cause>;

// The sizes of a case, the word at which its expected answer starts, and the one at which the next case does.
#[derive(Clone, Copy)]
struct Case {
    leaf: u64,
    n: usize,
    a: usize,
    b: usize,
    out: usize,
    floats: usize,
    i: usize,
    j: usize,
    expected: usize,
    next: usize,
}

// The case at `at`: eight words, and the expected answer after its two lists.
fn read_case(text: &[u8], at: usize) -> Case
    requires { at ≤ 20000 }
    ensures value { result ≡ case_at text.now at }
    ensures a_bound { (result.a ≤ 144) × (result.b ≤ 144) × (result.out ≤ 144) × (result.floats ≤ 8192) × (result.expected ≤ 20296) × (at < result.next) }
{
    let a = test_words::size_from(text, at, 2, 144);
    let b = test_words::size_from(text, at, 3, 144);
    let expected = at + 8 + a + b;
    Case {
        leaf: test_words::word_from(text, at, 0),
        n: test_words::word_from(text, at, 1) as usize,
        a,
        b,
        out: test_words::size_from(text, at, 4, 144),
        floats: test_words::size_from(text, at, 5, 8192),
        i: test_words::word_from(text, at, 6) as usize,
        j: test_words::word_from(text, at, 7) as usize,
        expected,
        next: expected + 3 + test_words::size_from(text, expected, 2, 144),
    }
}

// An average as the other leaves answer.
fn of_average(a: Average) -> Valued
    ensures { measured_of result ≡ measured_by (averaged_of a) }
{
    match a {
        Ok(x) => Ok(x),
        Err(_many) => Err(Cause::TooLarge),
    }
}

// Leaves 2 to 6, by 0 to 4.
#[tactic(auto, using(std::proofs::lemmas::Bool::Decides::nat_tests), unfolding(crate::specs::Cases::average_of))]
fn average(which: u64, ddof: usize, a: &[f64]) -> Average
    ensures { averaged_of result ≡ average_of which ddof a.now }
{
    if which == 0 {
        return stats::mean(a);
    }
    if which == 1 {
        return stats::variance(a, ddof);
    }
    if which == 2 {
        return stats::std_dev(a, ddof);
    }
    if which == 3 {
        return tstat::tstat(a);
    }
    tstat::mean_of(a)
}

// Leaf 1.
#[tactic(auto, using(std::proofs::lemmas::Bool::Decides::nat_tests), unfolding(crate::specs::Cases::first_root))]
fn root_of(a: &[f64]) -> Valued
    ensures { measured_of result ≡ first_root a.now }
{
    if a.len() == 0 {
        return Ok(None);
    }
    Ok(Some(sqrt::sqrt(a[0])))
}

// Leaf 15: leaves 2 to 6, with ddof 0, over n values of 0.5, of which there may be too many.
fn call_many(which: u64, n: usize) -> Valued
    ensures { measured_of result ≡ measured_by (average_of which 0 (replicate n half)) }
{
    if n > 65537 {
        return Err(Cause::TooLarge);
    }
    let values = lists::filled::<f64, 65537>(0.5);
    of_average(average(which, 0, &values[..n]))
}

// Leaves 1 to 7, 14 and 15: they answer one value, or none.
fn call_value(c: Case, a: &[f64], b: &[f64], rows: &[usize]) -> Valued
    ensures { measured_of result ≡ value_of c a.now b.now rows.now }
{
    if c.leaf < 2 {
        return root_of(a);
    }
    if c.leaf < 7 {
        return of_average(average(c.leaf - 2, c.n, a));
    }
    if c.leaf == 7 {
        return Ok(Some(distance_squared::squared_distance(a, b)));
    }
    if c.leaf == 14 {
        let squared = distance_squared::squared_distance_through(a, c.n, rows, c.i, c.j)?;
        return Ok(Some(squared));
    }
    call_many(c.i as u64, c.n)
}

// Leaves 8 to 13: they fill a list, 11 to 13 by the help of a working list.
fn call_list(c: Case, a: &[f64], rows: &[usize], out: &mut [f64], floats: &mut [f64]) -> Answer
    ensures { record { answer = refusal_of result; out = out.new; floats = floats.new } ≡ list_of c a.now rows.now out.old floats.old }
{
    if c.leaf == 8 {
        return distance::corr_to_distance(a, c.n, out);
    }
    if c.leaf == 9 {
        return distance::corr_to_distance_through(a, c.n, rows, out);
    }
    if c.leaf == 10 {
        return distance::submatrix(a, c.n, rows, out);
    }
    if c.leaf == 11 {
        return distance_pairwise::pairwise_distances(a, c.n, out, floats);
    }
    if c.leaf == 12 {
        return distance_pairwise::pairwise_distances_through(a, c.n, rows, out, floats);
    }
    silhouette::silhouette_from_pairwise(a, c.n, rows, out, floats)
}

// How many names the working list is for: none for 8 to 10, the row numbers for 12.
#[tactic(auto, using(std::proofs::lemmas::Bool::Decides::nat_tests), unfolding(crate::specs::Cases::names_of))]
fn names_of(c: Case) -> usize
    ensures { result ≡ names_of c }
{
    if c.leaf < 11 {
        return 0;
    }
    if c.leaf == 12 {
        return c.b;
    }
    c.n
}

// Whether the text has these numbers at `expected`, and the patterns of these values behind the third.
fn same_values(text: &[u8], expected: usize, answer: &[usize], values: &[f64]) -> bool
    requires { expected ≤ 20296 }
    ensures { result ≡ same_numbers text.now expected answer.now && same_doubles text.now (expected + 3) values.now }
{
    test_compared::same_numbers(text, expected, answer)
        && test_compared::same_doubles(text, expected + 3, values)
}

// Whether the text has this answer's number and place, the count of these values and their patterns at `expected`.
fn same_outcome(text: &[u8], expected: usize, a: Answer, values: &[f64]) -> bool
    requires { expected ≤ 20296 }
    ensures { result ≡ same_outcome text.now expected (refusal_of a) values.now }
{
    let answer = [refusals::number_of(a), refusals::place_of(a), values.len()];
    let right = same_values(text, expected, &answer, values);
    test_counts::shown(right, text, expected, &answer)
}

// Whether a leaf that answers one value or none answers what is expected.
fn right_value(text: &[u8], c: Case, s: Valued) -> bool
    requires { c.expected ≤ 20296 }
    ensures { result ≡ right_value text.now c (measured_of s) }
{
    match s {
        Ok(Some(x)) => same_outcome(text, c.expected, Ok(()), &[x]),
        Ok(None) => same_outcome(text, c.expected, Ok(()), &[]),
        Err(cause) => same_outcome(text, c.expected, Err(cause), &[]),
    }
}

// Runs a leaf that fills a list, and compares what it answers and leaves.
fn right_leaf(
    text: &[u8],
    c: Case,
    a: &[f64],
    rows: &[usize],
    out: &mut [f64],
    floats: &mut [f64],
) -> bool
    requires { c.expected ≤ 20296 }
    ensures { result ≡ right_leaf text.now c (list_of c a.now rows.now out.old floats.old) }
{
    let answer = call_list(c, a, rows, out, floats);
    if !same_outcome(text, c.expected, answer, out) {
        return false;
    }
    let names = test_compared::names_wiped(refusals::number_of(answer), names_of(c));
    test_compared::left_doubles(floats, test_compared::front(names))
}

// The same, on lists of the case's sizes.
fn right_lent(text: &[u8], c: Case, a: &[f64], rows: &[usize]) -> bool
    requires { (c.out ≤ 144) × (c.floats ≤ 8192) × (c.expected ≤ 20296) }
    ensures { result ≡ right_leaf text.now c (list_of c a.now rows.now (replicate c.out seven) (replicate c.floats seven)) }
{
    let mut out = lists::filled::<f64, 144>(7.0);
    let mut floats = lists::filled::<f64, 8192>(7.0);
    let n_out = c.out;
    let n_floats = c.floats;
    right_leaf(text, c, a, rows, &mut out[..n_out], &mut floats[..n_floats])
}

// Runs a case whose lists are read.
#[tactic(auto, using(std::proofs::lemmas::Bool::Decides::nat_tests), unfolding(crate::specs::Cases::right_lists))]
fn right_lists(text: &[u8], c: Case, a: &[f64], b: &[f64], rows: &[usize]) -> bool
    requires { (c.out ≤ 144) × (c.floats ≤ 8192) × (c.expected ≤ 20296) }
    ensures { result ≡ right_lists text.now c a.now b.now rows.now }
{
    if c.leaf < 8 || c.leaf > 13 {
        return right_value(text, c, call_value(c, a, b, rows));
    }
    right_lent(text, c, a, rows)
}

// Reads the case's lists, the second both as doubles and as numbers, and runs it.
fn right_case(text: &[u8], at: usize, c: Case) -> bool
    requires { (at ≤ 20000) × (c.a ≤ 144) × (c.b ≤ 144) × (c.out ≤ 144) × (c.floats ≤ 8192) × (c.expected ≤ 20296) }
    ensures { result ≡ right_case text.now at c }
{
    let n_a = c.a;
    let n_b = c.b;
    let first = at + 8;
    let second = first + n_a;
    let a = test_words::doubles_at::<144>(text, first, n_a);
    let b = test_words::doubles_at::<144>(text, second, n_b);
    let rows = test_words::numbers_at::<144>(text, second, n_b);
    right_lists(text, c, &a[..n_a], &b[..n_b], &rows[..n_b])
}

// Runs every case of the text, and reports those that differ.
fn run(text: &[u8]) -> Counts
    requires { length text.now ≤ 262144 }
    ensures { result ≡ counts_in text.now }
{
    let words = text.len() / 17;
    let mut at = 0;
    let mut counts = Counts {
        cases: 0,
        differ: 0,
    };
    while at < words {
        let c = read_case(text, at);
        let right = right_case(text, at, c);
        counts = test_counts::counted(counts, right, c.leaf, at, c.next, words);
        at = c.next;
    }
    counts
}

fn main() {
    let mut text = lists::buffer::<u8, 262144>(0);
    let n = io::read_full(0, &mut text);
    let counts = run(&text[..n]);
    test_counts::summary(counts, n, text.len());
}
