// StdRng of rand 0.10: ChaCha with 12 rounds, its key from a number of 64 bits, and what is drawn from its words: an index and a share.
#![tactic(auto)]

ghost use Rattle.std.specs.Prelude.{◌≡◌, ◌+◌, ◌*◌, ◌/◌, ◌%◌, ◌^◌, ◌<◌, ◌≤◌, length};
ghost use Rattle.rng_std.specs.Seeds.{advanced, output_of, key_of};
ghost use Rattle.rng_std.specs.Words.{word_of, index_from, share_from};
ghost use Rattle.rng_std.specs.States.{key_in, Filled, Holds, Moved, DrawnBy};

// A generator is a lent list of 72 words: the 64 words of the chunk that the next word is in, then the 8 words of the key. The caller keeps the count of the
// words taken.

// A draw, and how many words are then taken.
#[derive(Drop)]
pub struct Drawn {
    pub value: u64,
    pub taken: u64,
}

// One step of the generator that makes the key: times a constant, plus another, carries dropped.
fn advance(s: u64) -> u64
    ensures { result ≡ advanced s }
{
    s.wrapping_mul(0x5851_f42d_4c95_7f2d)
        .wrapping_add(0xa176_54e4_6fbe_17f3)
}

// Its word.
fn output(s: u64) -> u32
    ensures { result ≡ output_of s }
{
    let x = (((s >> 18) ^ s) >> 27) % 0x1_0000_0000;
    let n = (s >> 59) as u32;
    (x as u32).rotate_right(n)
}

// The key of a seed: eight of them, the first after one step.
fn key_of(seed: u64) -> [u32; 8]
    ensures { result ≡ key_of seed }
{
    let s1 = advance(seed);
    let s2 = advance(s1);
    let s3 = advance(s2);
    let s4 = advance(s3);
    let s5 = advance(s4);
    let s6 = advance(s5);
    let s7 = advance(s6);
    let s8 = advance(s7);
    [
        output(s1),
        output(s2),
        output(s3),
        output(s4),
        output(s5),
        output(s6),
        output(s7),
        output(s8),
    ]
}

// The key in a generator's list.
fn key_in(rng: &[u32]) -> [u32; 8]
    requires { length rng.now ≡ 72 }
    ensures { result ≡ key_in rng.now }
{
    let mut key = lists::buffer::<u32, 8>(0);
    key.copy_from_slice(&rng[64..72]);
    key
}

// The list with this key.
fn put_key(rng: &mut [u32], key: [u32; 8])
    requires { length rng.old ≡ 72 }
    ensures { key_in rng.new ≡ key }
{
    rng[64..72].copy_from_slice(&key);
}

// The list with the chunk of this number: four blocks of 12 rounds.
fn refill(rng: &mut [u32], number: u64)
    requires { (length rng.old ≡ 72) × (number < 2 ^ 60) }
    ensures { Filled number rng.old rng.new }
{
    let key = key_in(rng);
    rng_chacha::four_blocks(key, 4 * number, 0, 6, &mut rng[..64]);
}

// The generator of a seed, behind its first `taken` words. Inner form: the list has 72 words, which hold anything before the call.
pub fn seed_from_u64(seed: u64, taken: u64, rng: &mut [u32])
    requires { (length rng.old ≡ 72) × (taken < 2 ^ 62) }
    ensures { (key_in rng.new ≡ key_of seed) × Holds taken rng.new }
{
    put_key(rng, key_of(seed));
    refill(rng, taken / 64);
}

// The next word. Inner form: fewer than 2^62 were taken.
pub fn next_u32(rng: &mut [u32], taken: u64) -> u32
    requires { Holds taken rng.old × (taken < 2 ^ 62) }
    ensures { (result ≡ word_of (key_in rng.old) taken) × Moved rng.old (taken + 1) rng.new }
{
    let at = (taken % 64) as usize;
    let value = rng[at];
    if at < 63 {
        return value;
    }
    refill(rng, taken / 64 + 1);
    value
}

// What the sum of two words carries.
fn carry(a: u64, b: u64) -> u64
    requires { (a < 2 ^ 32) × (b < 2 ^ 32) }
    ensures { (result ≡ (a + b) / 2 ^ 32) × (result < 2) }
{
    (a + b) / 0x1_0000_0000
}

// An index below n. Inner form: n is not 0, and fewer than 2^61 words were taken.
pub fn random_range(rng: &mut [u32], taken: u64, n: u32) -> Drawn
    requires { Holds taken rng.old × (taken < 2 ^ 61) × (0 < n) }
    ensures { DrawnBy (index_from (word_of (key_in rng.old)) n taken) result rng.old rng.new }
{
    let first = next_u32(rng, taken);
    let wide = (first as u64) * (n as u64);
    let upper = wide / 0x1_0000_0000;
    let lower = wide % 0x1_0000_0000;
    if lower <= 0x1_0000_0000 - (n as u64) {
        return Drawn {
            value: upper,
            taken: taken + 1,
        };
    }
    let second = next_u32(rng, taken + 1);
    let more = (second as u64) * (n as u64) / 0x1_0000_0000;
    Drawn {
        value: upper + carry(lower, more),
        taken: taken + 2,
    }
}

// A share, times 2^53. Inner form: fewer than 2^61 words were taken.
pub fn random_share(rng: &mut [u32], taken: u64) -> Drawn
    requires { Holds taken rng.old × (taken < 2 ^ 61) }
    ensures { DrawnBy (share_from (word_of (key_in rng.old)) taken) result rng.old rng.new }
{
    let first = next_u32(rng, taken);
    let second = next_u32(rng, taken + 1);
    let wide = (second as u64) * 0x1_0000_0000 + (first as u64);
    Drawn {
        value: wide / 2048,
        taken: taken + 2,
    }
}
