// Digits in ASCII, the bytes of a text by their place, and what ends a field of a line.
#![tactic(auto)]

ghost use Rattle.std.specs.Prelude.{◌≡◌, ◌<◌};
ghost use Rattle.text_digits.specs.Digits.{byte_at, digit_of, digit_byte, stop_of};

// The byte at a place, and 0 behind the end.
pub fn byte_at(text: &[u8], i: usize) -> u8
    ensures { result ≡ byte_at text.now i }
{
    text.get(i).copied().unwrap_or(0)
}

// What a byte is worth as a digit: 0 to 9, a to f; 16 where it is none.
#[tactic(auto, using(std::proofs::lemmas::Bool::Decides::nat_tests), unfolding(crate::specs::Digits::digit_of))]
pub fn digit(b: u8) -> u64
    ensures { result ≡ digit_of b }
{
    match b {
        b'0'..=b'9' => (b - b'0') as u64,
        b'a'..=b'f' => (b - b'a' + 10) as u64,
        _ => 16,
    }
}

// Inner form. The byte of a digit below 16.
#[tactic(auto, using(std::proofs::lemmas::Bool::Decides::nat_tests), unfolding(crate::specs::Digits::digit_byte))]
pub fn digit_byte(d: u64) -> u8
    requires { d < 16 }
    ensures { result ≡ digit_byte d }
{
    if d < 10 {
        b'0' + d as u8
    } else {
        b'a' + (d - 10) as u8
    }
}

// Inner form. What ends field t of n.
pub fn stop_of(t: usize, n: usize) -> u8
    requires { t < n }
    ensures { result ≡ stop_of t n }
{
    if t + 1 == n { b'\n' } else { b' ' }
}
