// Runs recorded texts through the grouping program's call and counts those for which it prints something else than is recorded.
// Standard input has the cases one after the other. A case is:
// - two lines of 16 hex digits: the length of a text, and the length of what must be printed for it;
// - the bytes of the text, then the bytes that must be printed.
// A text may have any bytes, so a case is found by its byte place. specs/Texts.antt says when it is answered as recorded.
// For a case that differs the program prints what is expected and what was found, then the case's number from 1 and the
// bytes from which to which it stands. harness/grouping/run.sh records the cases.
#![tactic(auto)]

ghost use Rattle.std.specs.Prelude.{◌+◌, ◌<◌, ◌≤◌, ◌≡◌, length};
ghost use Rattle.test_texts.specs.Texts.{first_of, case_at, same_bytes, right_text, right_case, counts_in};

use test_counts::Counts;

// Where the text of a case starts, its length, and the length of what must be printed, which stands behind it.
#[derive(Clone, Copy)]
struct Case {
    first: usize,
    text: usize,
    answer: usize,
}

// Where the text of the case at `at` starts: behind the two lengths, or at the end of a file that is cut off before.
fn first_of(cases: &[u8], at: usize) -> usize
    requires { (at < length cases.now) × (length cases.now ≤ 524288) }
    ensures { (result ≡ first_of cases.now at) × (at < result) × (result ≤ length cases.now) }
{
    (at + 34).min(cases.len())
}

// The case at `at`, of what there is of it.
fn read_case(cases: &[u8], at: usize) -> Case
    requires { (at < length cases.now) × (length cases.now ≤ 524288) }
    ensures { (result ≡ case_at cases.now at) × (at < result.first) × (result.first + result.text + result.answer ≤ length cases.now) }
{
    let first = first_of(cases, at);
    let rest = cases.len() - first;
    let text = test_words::size_from(&cases[at..], 0, 0, rest);
    let answer = test_words::size_from(&cases[at..], 0, 1, rest - text);
    Case {
        first,
        text,
        answer,
    }
}

// Whether two texts have the same length and the same byte at each place.
fn same_bytes(a: &[u8], b: &[u8]) -> bool
    ensures { result ≡ same_bytes a.now b.now }
{
    a == b
}

// Whether the grouping program prints this answer for the text; `out` is for what it prints.
fn right_in(text: &[u8], answer: &[u8], out: &mut [u8]) -> bool
    requires { 1024 ≤ length out.old }
    ensures { result ≡ right_text text.now answer.now }
{
    let w = text_program::answer_to(text, out);
    let n = text_written::bytes_of(w);
    let right = same_bytes(&out[..n], answer);
    test_counts::shown_text(right, answer, &out[..n])
}

fn right_text(text: &[u8], answer: &[u8]) -> bool
    ensures { result ≡ right_text text.now answer.now }
{
    let mut out = io::buffer();
    right_in(text, answer, &mut out)
}

// Whether a case is answered as recorded.
fn right_case(cases: &[u8], c: Case) -> bool
    requires { (c.first + c.text + c.answer ≤ length cases.now) × (length cases.now ≤ 524288) }
    ensures { result ≡ right_case cases.now c }
{
    let first = c.first;
    let middle = first + c.text;
    let end = middle + c.answer;
    right_text(&cases[first..middle], &cases[middle..end])
}

// Runs every case of the file, and reports those that differ, by their byte places; there is one kind only.
fn run(cases: &[u8]) -> Counts
    requires { length cases.now ≤ 524288 }
    ensures { result ≡ counts_in cases.now }
{
    let n = cases.len();
    let mut at = 0;
    let mut counts = Counts {
        cases: 0,
        differ: 0,
    };
    while at < n {
        let c = read_case(cases, at);
        let right = right_case(cases, c);
        let next = c.first + c.text + c.answer;
        counts = test_counts::counted(counts, right, 0, at, next, n);
        at = next;
    }
    counts
}

fn main() {
    let mut cases = lists::buffer::<u8, 524288>(0);
    let n = io::read_full(0, &mut cases);
    let counts = run(&cases[..n]);
    test_counts::summary(counts, n, cases.len());
}
