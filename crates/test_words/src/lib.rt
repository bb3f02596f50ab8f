// The words of a text, one a line of 16 hex digits, for the programs that run recorded cases.
#![tactic(auto)]

ghost use Rattle.std.specs.Prelude.{take, ◌≤◌, ◌≡◌, length};
ghost use Rattle.test_words.specs.Words.{hex_digit_of, with_digit, value_of, word_at, word_from, size_from, doubles_from, words_from};

// The value of a digit, 0 to 9 or a to f; of any other byte some value below 16.
#[tactic(auto, using(std::proofs::lemmas::Bool::Decides::nat_tests), unfolding(crate::specs::Words::hex_digit_of))]
fn hex_digit(b: u8) -> u64
    ensures { (result ≡ hex_digit_of b) × (result ≤ 15) }
{
    if b < b'a' {
        (b % 16) as u64
    } else {
        ((b % 16 + 9) % 16) as u64
    }
}

// A value with one digit more at its end; of seventeen digits the first is lost.
#[tactic(auto, unfolding(crate::specs::Words::with_digit))]
fn with_digit(value: u64, b: u8) -> u64
    ensures { result ≡ with_digit value b }
{
    value % 0x1000_0000_0000_0000 * 16 + hex_digit(b)
}

// The value of hex digits.
fn hex_value(digits: &[u8]) -> u64
    ensures { result ≡ value_of digits.now }
{
    let mut value: u64 = 0;
    for b in digits {
        value = with_digit(value, *b);
    }
    value
}

// Word k of the text, of the first 200001; 0 past its end.
#[tactic(auto, using(std::proofs::lemmas::Bool::Decides::nat_tests), unfolding(crate::specs::Words::word_at))]
fn word(text: &[u8], k: usize) -> u64
    ensures { result ≡ word_at text.now k }
{
    if k > 200000 {
        return 0;
    }
    let at = k * 17;
    let end = at + 16;
    if end > text.len() {
        return 0;
    }
    hex_value(&text[at..end])
}

// The word i places after the one at `at`; 0 where one of the two is above 100000.
#[tactic(auto, using(std::proofs::lemmas::Bool::Decides::nat_tests), unfolding(crate::specs::Words::word_from))]
pub fn word_from(text: &[u8], at: usize, i: usize) -> u64
    ensures { result ≡ word_from text.now at i }
{
    if at > 100000 || i > 100000 {
        return 0;
    }
    word(text, at + i)
}

// The same word as a size of at most `most`.
#[tactic(auto, using(std::proofs::lemmas::Bool::Decides::nat_tests))]
pub fn size_from(text: &[u8], at: usize, i: usize, most: usize) -> usize
    ensures { (result ≡ size_from text.now at i most) × (result ≤ most) }
{
    (word_from(text, at, i) as usize).min(most)
}

// The words from `at` on into a list: as doubles, as numbers and as draws.
pub fn doubles(text: &[u8], at: usize, xs: &mut [f64])
    ensures { xs.new ≡ doubles_from text.now at (length xs.old) }
{
    for i in 0..xs.len() {
        xs[i] = bits::double_of(word_from(text, at, i));
    }
}

pub fn numbers(text: &[u8], at: usize, xs: &mut [usize])
    ensures { xs.new ≡ words_from text.now at (length xs.old) }
{
    for i in 0..xs.len() {
        xs[i] = word_from(text, at, i) as usize;
    }
}

pub fn draws(text: &[u8], at: usize, xs: &mut [u64])
    ensures { xs.new ≡ words_from text.now at (length xs.old) }
{
    for i in 0..xs.len() {
        xs[i] = word_from(text, at, i);
    }
}

// The first n words from `at` on, in front of a list of N places, as doubles. Inner form, as the next two.
pub fn doubles_at<const N: usize>(text: &[u8], at: usize, n: usize) -> [f64; N]
    requires { (n ≤ N) × (N ≤ 65536) }
    ensures { (N ≡ length result) × (take n result ≡ doubles_from text.now at n) }
{
    let mut xs = lists::buffer::<f64, N>(0.0);
    doubles(text, at, &mut xs[..n]);
    xs
}

// The same as numbers. Inner form.
pub fn numbers_at<const N: usize>(text: &[u8], at: usize, n: usize) -> [usize; N]
    requires { (n ≤ N) × (N ≤ 65536) }
    ensures { (N ≡ length result) × (take n result ≡ words_from text.now at n) }
{
    let mut xs = lists::buffer::<usize, N>(0);
    numbers(text, at, &mut xs[..n]);
    xs
}

// The same as draws. Inner form.
pub fn draws_at<const N: usize>(text: &[u8], at: usize, n: usize) -> [u64; N]
    requires { (n ≤ N) × (N ≤ 65536) }
    ensures { (N ≡ length result) × (take n result ≡ words_from text.now at n) }
{
    let mut xs = lists::buffer::<u64, N>(0);
    draws(text, at, &mut xs[..n]);
    xs
}
