// Runs cases of the check of a book in whole millionths, and counts those that are answered otherwise than expected.
// Standard input has one word a line, 16 hex digits. A case is the rows, the columns, the count of cells, the cells in
// two's complement, and the expected number and place. harness/intake.py works the cases out, and specs/Cases.antt says
// when one is answered as expected. For a case that differs the program prints the number and place, as expected and as
// found, then the case's number from 1 and the words from which to which it stands.
// Two books too long for the text, of 256 and of 257 names, are made in place.
#![tactic(auto)]

ghost use Rattle.std.specs.Prelude.{◌*◌, ◌<◌, ◌≤◌, ◌≡◌, [], ◌∷◌, length};
ghost use Rattle.intake_answers.specs.Answers.{refusal_of};
ghost use Rattle.intake.specs.Intake.{intake_of};
ghost use Rattle.test_intake.specs.Cases.{signed_of, signed_from, case_at, same_answer, right_case, counts_in, made_cell, made_book};

use intake_answers::Intake;
use test_counts::Counts;

// The sizes of a case, the word at which its expected answer starts, and the one at which the next case does.
#[derive(Clone, Copy)]
struct Case {
    rows: usize,
    cols: usize,
    cells: usize,
    expected: usize,
    next: usize,
}

// The number that a word is in two's complement.
fn signed_of(word: u64) -> i64
    ensures { result ≡ signed_of word }
{
    if word < 0x8000_0000_0000_0000 {
        return word as i64;
    }
    -1 - (0xffff_ffff_ffff_ffff - word) as i64
}

// The words from `at` on into a list, as signed numbers.
fn signed(text: &[u8], at: usize, xs: &mut [i64])
    ensures { xs.new ≡ signed_from text.now at (length xs.old) }
{
    for i in 0..xs.len() {
        xs[i] = signed_of(test_words::word_from(text, at, i));
    }
}

// The case at `at`: three words, and the expected answer after its cells.
fn read_case(text: &[u8], at: usize) -> Case
    requires { at ≤ 20000 }
    ensures value { result ≡ case_at text.now at }
    ensures cells_bound { (result.cells ≤ 256) × (at < result.next) }
{
    let cells = test_words::size_from(text, at, 2, 256);
    let expected = at + 3 + cells;
    Case {
        rows: test_words::word_from(text, at, 0) as usize,
        cols: test_words::word_from(text, at, 1) as usize,
        cells,
        expected,
        next: expected + 2,
    }
}

// The answer's number and place.
fn answer_of(a: Intake) -> [usize; 2]
    ensures { result ≡ (refusal_of a).number ∷ (refusal_of a).place ∷ [] }
{
    [intake_answers::number_of(a), intake_answers::place_of(a)]
}

// Whether the text has this answer's number and place at `expected`.
fn same_answer(text: &[u8], expected: usize, a: Intake) -> bool
    ensures { result ≡ same_answer text.now expected (refusal_of a) }
{
    let answer = answer_of(a);
    test_compared::same_numbers(text, expected, &answer)
}

// Gives `right` back. If it is false, prints these two, as expected and as found.
fn shown_answer(right: bool, text: &[u8], expected: usize, a: Intake) -> bool
    ensures { result ≡ right }
{
    let answer = answer_of(a);
    test_counts::shown(right, text, expected, &answer)
}

// Reads the case's cells into a list of their count, and checks them as a book.
fn right_cells(text: &[u8], at: usize, c: Case, cells: &mut [i64]) -> bool
    requires { (at ≤ 20000) × (length cells.old ≡ c.cells) }
    ensures { result ≡ right_case text.now at c }
{
    signed(text, at + 3, cells);
    let a = intake::check_book(cells, c.rows, c.cols);
    let right = same_answer(text, c.expected, a);
    shown_answer(right, text, c.expected, a)
}

fn right_case(text: &[u8], at: usize, c: Case) -> bool
    requires { (at ≤ 20000) × (c.cells ≤ 256) }
    ensures { result ≡ right_case text.now at c }
{
    let mut cells = lists::buffer::<i64, 256>(0);
    let n = c.cells;
    right_cells(text, at, c, &mut cells[..n])
}

// Runs every case of the text, and reports those that differ; there is one kind only.
fn run(text: &[u8]) -> Counts
    requires { length text.now ≤ 262144 }
    ensures { result ≡ counts_in text.now }
{
    let words = text.len() / 17;
    let mut at = 0;
    let mut counts = Counts {
        cases: 0,
        differ: 0,
    };
    while at < words {
        let c = read_case(text, at);
        let right = right_case(text, at, c);
        counts = test_counts::counted(counts, right, 0, at, c.next, words);
        at = c.next;
    }
    counts
}

// The cell in row i and column j of a book that is made in place.
fn made_cell(i: usize, j: usize) -> i64
    requires { (i ≤ 257) × (j ≤ 257) }
    ensures { result ≡ made_cell i j }
{
    if i == j {
        return 1000000;
    }
    ((i + j) * 1000) as i64
}

fn make_book(cells: &mut [i64], n: usize)
    requires { (n ≤ 257) × (length cells.old ≡ n * n) }
    ensures { cells.new ≡ made_book n }
{
    for t in 0..cells.len() {
        cells[t] = made_cell(t / n, t % n);
    }
}

// The answer for a made book of n names.
fn made_in(cells: &mut [i64], n: usize) -> Intake
    requires { (n ≤ 257) × (length cells.old ≡ n * n) }
    ensures { refusal_of result ≡ intake_of (made_book n) n n }
{
    make_book(cells, n);
    intake::check_book(cells, n, n)
}

fn made_answer(n: usize) -> Intake
    requires { n ≤ 257 }
    ensures { refusal_of result ≡ intake_of (made_book n) n n }
{
    let mut cells = lists::buffer::<i64, 66049>(0);
    let count = n * n;
    made_in(&mut cells[..count], n)
}

// Prints the answer for a made book. A line that cannot be written is left out, as `summary` leaves it out.
fn print_made(rt: HostRuntime, n: usize, a: Intake) {
    let number = intake_answers::number_of(a);
    let place = intake_answers::place_of(a);
    let _ = println!(rt; "{n} names: {number} at {place}");
}

fn main(rt: HostRuntime) {
    let mut text = lists::buffer::<u8, 262144>(0);
    let n = io::read_full(0, &mut text);
    let counts = run(&text[..n]);
    test_counts::summary(counts, n, text.len());
    print_made(rt, 256, made_answer(256));
    print_made(rt, 257, made_answer(257));
}
