// A double and its bits, at every pattern and every value.
#![tactic(auto)]

ghost use Rattle.std.specs.Prelude.{◌≡◌};
ghost use Rattle.bits.specs.Bits.{double_of, bits_of};

// The double of a pattern; every NaN pattern is one NaN.
pub fn double_of(bits: u64) -> f64
    ensures { result ≡ double_of bits }
{
    if bits % 0x8000_0000_0000_0000 > 0x7ff0_0000_0000_0000 {
        return 0.0 / 0.0;
    }
    f64::from_bits(bits)
}

// The pattern of a double; every NaN has one.
pub fn bits_of(x: f64) -> u64
    ensures { result ≡ bits_of x }
{
    if x != x {
        return 0x7ff8_0000_0000_0000;
    }
    f64::to_bits(x)
}
