// Bytes, numbers and words written to a list from a place on. Inner forms, for `text_answer`.
#![tactic(auto)]

ghost use Rattle.std.specs.Prelude.{◌≡◌, ◌+◌, ◌<◌, ◌≤◌, ◌++◌, ◌∷◌, [], length};
ghost use Rattle.std.proofs.lemmas.List.Edits.{sets};
ghost use Rattle.text_digits.specs.Digits.{digits_of, places_to, width_of, numeral, stop_of};
ghost use Rattle.text_writing.specs.Stores.{Wrote};

// How many decimal digits a number takes.
fn places(x: u64) -> usize
    ensures { result ≡ places_to 20 x }
{
    let mut k: usize = 1;
    let mut rest = x;
    while rest >= 10 {
        rest /= 10;
        k += 1;
    }
    k
}

// How many digits a number is written with.
#[tactic(auto, using(std::proofs::lemmas::Bool::Decides::nat_tests), unfolding(text_digits::specs::Digits::width_of))]
fn width_of(x: u64, base: u64) -> usize
    ensures { result ≡ width_of base x }
{
    if base == 16 { 16 } else { places(x) }
}

// The last k digits of a number, stored from the last one on.
fn put_digits(out: &mut [u8], at: usize, x: u64, base: u64, k: usize)
    requires { (0 < base) × (base ≤ 16) × (at + k ≤ length out.old) }
    ensures { out.new ≡ sets out.old at (digits_of base k x) }
{
    let mut rest = x;
    for i in (0..k).rev() {
        out[at + i] = text_digits::digit_byte(rest % base);
        rest /= base;
    }
}

// Each `put_` function below writes from a place on, and answers the place behind what it wrote.
// A number, in base 10 or 16.
fn put_number(out: &mut [u8], at: usize, x: u64, base: u64) -> usize
    requires { (0 < base) × (base ≤ 16) × (at + 20 ≤ length out.old) }
    ensures { Wrote out.old out.new at (numeral base x) result }
{
    let k = width_of(x, base);
    put_digits(out, at, x, base, k);
    at + k
}

pub fn put_byte(out: &mut [u8], at: usize, b: u8) -> usize
    requires { at < length out.old }
    ensures { Wrote out.old out.new at (b ∷ []) result }
{
    out[at] = b;
    at + 1
}

fn put_bytes(out: &mut [u8], at: usize, word: &[u8]) -> usize
    requires { at + length word.now ≤ length out.old }
    ensures { Wrote out.old out.new at word.now result }
{
    let end = at + word.len();
    out[at..end].copy_from_slice(word);
    end
}

// A word, and a decimal number behind it.
pub fn put_field(out: &mut [u8], at: usize, word: &[u8], x: u64) -> usize
    requires { at + length word.now + 20 ≤ length out.old }
    ensures { Wrote out.old out.new at (word.now ++ numeral 10 x) result }
{
    let p = put_bytes(out, at, word);
    put_number(out, p, x, 10)
}

// Number t of a line of n, and the byte that ends it.
pub fn put_entry(out: &mut [u8], at: usize, x: u64, base: u64, t: usize, n: usize) -> usize
    requires { (0 < base) × (base ≤ 16) × (t < n) × (at + 21 ≤ length out.old) }
    ensures { Wrote out.old out.new at (numeral base x ++ (stop_of t n ∷ [])) result }
{
    let p = put_number(out, at, x, base);
    let stop = text_digits::stop_of(t, n);
    put_byte(out, p, stop)
}
