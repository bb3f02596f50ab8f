// What the programs that run recorded cases print: the cases that differ, and the count of all cases.
#![tactic(auto)]

ghost use Rattle.std.specs.Prelude.{◌<◌, ◌≤◌, ◌≡◌};
ghost use Rattle.test_counts.specs.Counting.{passes, with_case};

// The functions from here to `report`, and `summary`, only print.
fn print(text: &[u8]) {
    io::write_all(1, text);
}

fn print_number(n: u64, after: &[u8]) {
    io::print_decimal(1, n);
    print(after);
}

// n words of the text from `at` on, and the numbers of a list, in decimal.
fn print_words(text: &[u8], at: usize, n: usize) {
    for i in 0..n {
        print_number(test_words::word_from(text, at, i), b" ");
    }
}

fn print_numbers(xs: &[usize]) {
    for x in xs {
        print_number(*x as u64, b" ");
    }
}

// Names a case that differs: its number from 1, its kind, 0 where a program has one kind only, the place where it starts
// and the one where the next case does, and the length of the text: places of words, or of bytes.
fn report(case: u64, kind: u64, at: usize, next: usize, n: usize) {
    print(b"case ");
    print_number(case, b" differs, kind ");
    print_number(kind, b", from ");
    print_number(at as u64, b" to ");
    print_number(next as u64, b" of ");
    print_number(n as u64, b"\n");
}

// Gives `right` back. If it is false, prints the expected answer, whose words stand at `at`, and the one found.
pub fn shown(right: bool, text: &[u8], at: usize, found: &[usize]) -> bool
    ensures { result ≡ right }
{
    if right {
        return true;
    }
    print(b"expected ");
    print_words(text, at, found.len());
    print(b"found ");
    print_numbers(found);
    print(b"\n");
    false
}

// The same for an answer that is a text.
pub fn shown_text(right: bool, expected: &[u8], found: &[u8]) -> bool
    ensures { result ≡ right }
{
    if right {
        return true;
    }
    print(b"expected ");
    print(expected);
    print(b"found ");
    print(found);
    false
}

// How many cases ran, and how many of them differed.
#[derive(Drop)]
pub struct Counts {
    pub cases: u64,
    pub differ: u64,
}

// Whether a case that ends at `next` passes in a text that is n long: it is right, and does not end behind the text.
#[tactic(auto, using(std::proofs::lemmas::Bool::Decides::nat_tests), unfolding(crate::specs::Counting::passes))]
fn whole_and_right(right: bool, next: usize, n: usize) -> bool
    ensures { result ≡ passes right next n }
{
    next <= n && right
}

// One case more, of this kind, from `at` to `next` in a text that is n long. One that does not pass is reported.
pub fn counted(counts: Counts, right: bool, kind: u64, at: usize, next: usize, n: usize) -> Counts
    requires { (counts.differ ≤ counts.cases) × (counts.cases < 0xffff_ffff_ffff_ffff) }
    ensures { result ≡ with_case counts (passes right next n) }
{
    let cases = counts.cases + 1;
    if whole_and_right(right, next, n) {
        return Counts {
            cases,
            differ: counts.differ,
        };
    }
    report(cases, kind, at, next, n);
    Counts {
        cases,
        differ: counts.differ + 1,
    }
}

// Prints both. A text that fills the room for it may be longer, with cases that did not run: that is printed too.
pub fn summary(counts: Counts, bytes: usize, room: usize) {
    print_number(counts.cases, b" cases, ");
    print_number(counts.differ, b" differ\n");
    if bytes >= room {
        print(b"differs: the text fills the room for it and may be cut off\n");
    }
}
