// Whether what a call left in its lists is what was recorded: the same numbers and bits, and working lists with zeros at the front.
#![tactic(auto)]

ghost use Rattle.std.specs.Prelude.{◌≡◌};
ghost use Rattle.test_compared.specs.Compared.{same_numbers, same_doubles, front_of, numbers_front_of, left_at, left_doubles, left_numbers, left_lists, names_wiped};

// Whether the list has the numbers, and whether it has the bits, that the text has from `at` on.
pub fn same_numbers(text: &[u8], at: usize, xs: &[usize]) -> bool
    ensures { result ≡ same_numbers text.now at xs.now }
{
    for (i, x) in xs.iter().enumerate() {
        if *x != test_words::word_from(text, at, i) as usize {
            return false;
        }
    }
    true
}

pub fn same_doubles(text: &[u8], at: usize, xs: &[f64]) -> bool
    ensures { result ≡ same_doubles text.now at xs.now }
{
    for (i, x) in xs.iter().enumerate() {
        if bits::bits_of(*x) != test_words::word_from(text, at, i) {
            return false;
        }
    }
    true
}

// The doubles at the front of a working list that a call over m names leaves zero.
pub fn front(m: usize) -> usize
    ensures { result ≡ front_of m }
{
    if m > 256 { 0 } else { 8 * (m * m) + 256 * m }
}

// The whole numbers there.
fn numbers_front(m: usize) -> usize
    ensures { result ≡ numbers_front_of m }
{
    if m > 256 { 0 } else { 320 * m }
}

// What a working list has at i after a call that leaves its front zero: 0 there, and what it was lent with behind.
fn left_at(i: usize, front: usize, lent: u64) -> u64
    ensures { result ≡ left_at front lent i }
{
    if i < front { 0 } else { lent }
}

// Whether the front of a working list is +0 and the rest 7.0, as it was lent.
pub fn left_doubles(floats: &[f64], front: usize) -> bool
    ensures { result ≡ left_doubles floats.now front }
{
    for (i, x) in floats.iter().enumerate() {
        if bits::bits_of(*x) != left_at(i, front, 0x401c_0000_0000_0000) {
            return false;
        }
    }
    true
}

// The same of whole numbers: 0, and the rest 999.
fn left_numbers(numbers: &[usize], front: usize) -> bool
    ensures { result ≡ left_numbers numbers.now front }
{
    for (i, x) in numbers.iter().enumerate() {
        if *x as u64 != left_at(i, front, 999) {
            return false;
        }
    }
    true
}

// Whether both working lists are so after a call over m names; 0 for a call that keeps them.
#[tactic(auto, using(std::proofs::lemmas::Bool::Decides::nat_tests), unfolding(crate::specs::Compared::left_lists))]
pub fn left_lists(m: usize, floats: &[f64], numbers: &[usize]) -> bool
    ensures { result ≡ left_lists m floats.now numbers.now }
{
    left_doubles(floats, front(m)) && left_numbers(numbers, numbers_front(m))
}

// How many names the zero fronts are measured by: n, or 0 where every list is kept.
pub fn names_wiped(number: usize, n: usize) -> usize
    ensures { result ≡ names_wiped number n }
{
    if n > 256 {
        return 0;
    }
    match number {
        0 | 7 | 8 | 9 => n,
        _ => 0,
    }
}
