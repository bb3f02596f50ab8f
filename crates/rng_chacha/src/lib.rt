// The ChaCha block function (RFC 8439, 2.1 to 2.3, with the number of rounds as a parameter, a counter of 64 bits and a stream of 64 bits).
#![tactic(auto)]

ghost use Rattle.std.specs.Prelude.{◌≡◌, ◌+◌, ◌^◌, ◌<◌, ◌≤◌, length};
ghost use Rattle.rng_chacha.specs.ChaCha.{rotated, half_of, quarter_of, words_at, columns_of, diagonals_of, double_of, rounds_of, summed, start_of, block_of};
ghost use Rattle.rng_chacha.specs.Four.{lane_of, Each, Stored, Copied, four_of};

// Four words of a state.
#[derive(Drop)]
pub struct Quarter {
    pub a: u32,
    pub b: u32,
    pub c: u32,
    pub d: u32,
}

// x rotated left by n: its n upper bits become the lower ones. Inner form: n below 32.
#[tactic(auto, unfolding(crate::specs::ChaCha::rotated))]
pub fn rotate_left(x: u32, n: u32) -> u32
    requires { n < 32 }
    ensures { result ≡ rotated n x }
{
    x.rotate_left(n)
}

// Half of a quarter round: b into a, a into d, d into c, c into b.
fn half_round(q: Quarter, n: u32, m: u32) -> Quarter
    requires { (n < 32) × (m < 32) }
    ensures { result ≡ half_of n m q }
{
    let a = q.a.wrapping_add(q.b);
    let d = rotate_left(q.d ^ a, n);
    let c = q.c.wrapping_add(d);
    let b = rotate_left(q.b ^ c, m);
    Quarter { a, b, c, d }
}

pub fn quarter_round(q: Quarter) -> Quarter
    ensures { result ≡ quarter_of q }
{
    half_round(half_round(q, 16, 12), 8, 7)
}

// The quarter round of the words at four places of a state.
fn quarter_of(s: [u32; 16], i: usize, j: usize, k: usize, l: usize) -> Quarter
    requires { (i < 16) × (j < 16) × (k < 16) × (l < 16) }
    ensures { result ≡ quarter_of (words_at i j k l s) }
{
    quarter_round(Quarter {
        a: s[i],
        b: s[j],
        c: s[k],
        d: s[l],
    })
}

// A round on the columns, and one on the diagonals.
fn column_round(s: [u32; 16]) -> [u32; 16]
    ensures { result ≡ columns_of s }
{
    let q0 = quarter_of(s, 0, 4, 8, 12);
    let q1 = quarter_of(s, 1, 5, 9, 13);
    let q2 = quarter_of(s, 2, 6, 10, 14);
    let q3 = quarter_of(s, 3, 7, 11, 15);
    [
        q0.a, q1.a, q2.a, q3.a, q0.b, q1.b, q2.b, q3.b, q0.c, q1.c, q2.c, q3.c, q0.d, q1.d, q2.d,
        q3.d,
    ]
}

fn diagonal_round(s: [u32; 16]) -> [u32; 16]
    ensures { result ≡ diagonals_of s }
{
    let q0 = quarter_of(s, 0, 5, 10, 15);
    let q1 = quarter_of(s, 1, 6, 11, 12);
    let q2 = quarter_of(s, 2, 7, 8, 13);
    let q3 = quarter_of(s, 3, 4, 9, 14);
    [
        q0.a, q1.a, q2.a, q3.a, q3.b, q0.b, q1.b, q2.b, q2.c, q3.c, q0.c, q1.c, q1.d, q2.d, q3.d,
        q0.d,
    ]
}

// So many double rounds.
fn double_rounds(s: [u32; 16], doubles: usize) -> [u32; 16]
    ensures { result ≡ rounds_of doubles s }
{
    let mut t = s;
    for _ in 0..doubles {
        t = diagonal_round(column_round(t));
    }
    t
}

// The sum of two states, word by word, carries dropped.
fn sum(s: [u32; 16], t: [u32; 16]) -> [u32; 16]
    ensures { result ≡ summed s t }
{
    let mut out = t;
    for (i, x) in s.iter().enumerate() {
        out[i] = x.wrapping_add(t[i]);
    }
    out
}

// The words of one block, by its start: the rounds, and the start added.
pub fn block(s: [u32; 16], doubles: usize) -> [u32; 16]
    ensures { result ≡ block_of doubles s }
{
    sum(s, double_rounds(s, doubles))
}

// Where a block starts: four constants, the key, the block's number and the stream's, lower halves first.
pub fn start(key: [u32; 8], number: u64, stream: u64) -> [u32; 16]
    ensures { result ≡ start_of key number stream }
{
    [
        0x6170_7865,
        0x3320_646e,
        0x7962_2d32,
        0x6b20_6574,
        key[0],
        key[1],
        key[2],
        key[3],
        key[4],
        key[5],
        key[6],
        key[7],
        (number % 0x1_0000_0000) as u32,
        (number / 0x1_0000_0000) as u32,
        (stream % 0x1_0000_0000) as u32,
        (stream / 0x1_0000_0000) as u32,
    ]
}

// State b. Inner form, as all that follow: s has 64 words.
fn lane_of(s: &[u32], b: usize) -> [u32; 16]
    requires { (b < 4) × (length s.now ≡ 64) }
    ensures { result ≡ lane_of b s.now }
{
    let mut t = lists::buffer::<u32, 16>(0);
    for j in 0..16 {
        t[j] = s[b + 4 * j];
    }
    t
}

// t as state b.
fn put_lane(s: &mut [u32], b: usize, t: [u32; 16])
    requires { (b < 4) × (length s.old ≡ 64) }
    ensures { Stored b t s.old s.new }
{
    for (j, x) in t.iter().enumerate() {
        s[b + 4 * j] = *x;
    }
}

// The starts of four blocks, by the number of the first.
fn start_lanes(s: &mut [u32], key: [u32; 8], number: u64, stream: u64)
    requires { (number + 3 < 2 ^ 64) × (length s.old ≡ 64) }
    ensures { Each (λ b. start_of key (number + b) stream) 4 s.new }
{
    for b in 0..4 {
        put_lane(s, b, start(key, number + (b as u64), stream));
    }
}

// A double round of each state.
fn double_lanes(s: &mut [u32])
    requires { length s.old ≡ 64 }
    ensures { Each (λ b. double_of (lane_of b s.old)) 4 s.new }
{
    for b in 0..4 {
        put_lane(s, b, diagonal_round(column_round(lane_of(s, b))));
    }
}

// So many of them.
fn round_lanes(s: &mut [u32], doubles: usize)
    requires { length s.old ≡ 64 }
    ensures { Each (λ b. rounds_of doubles (lane_of b s.old)) 4 s.new }
{
    for _ in 0..doubles {
        double_lanes(s);
    }
}

// The words of a block, as block b of the list.
fn put_block(out: &mut [u32], b: usize, words: [u32; 16])
    requires { (length out.old ≡ 64) × (b < 4) }
    ensures { Copied b words out.old out.new }
{
    out[16 * b..16 * b + 16].copy_from_slice(&words);
}

// The sums of four starts and the states that their rounds made, one after the other.
fn sum_lanes(s: &[u32], key: [u32; 8], number: u64, stream: u64, out: &mut [u32])
    requires { (number + 3 < 2 ^ 64) × (length s.now ≡ 64) × (length out.old ≡ 64) }
    ensures { out.new ≡ four_of (λ b. summed (start_of key (number + b) stream) (lane_of b s.now)) }
{
    for b in 0..4 {
        put_block(
            out,
            b,
            sum(start(key, number + (b as u64), stream), lane_of(s, b)),
        );
    }
}

// The words of four blocks, by the number of the first, one after the other. Inner form: the list has 64 words, and the numbers fit.
pub fn four_blocks(key: [u32; 8], number: u64, stream: u64, doubles: usize, out: &mut [u32])
    requires { (number + 3 < 2 ^ 64) × (length out.old ≡ 64) }
    ensures { out.new ≡ four_of (λ b. block_of doubles (start_of key (number + b) stream)) }
{
    let mut s = lists::buffer::<u32, 64>(0);
    start_lanes(&mut s, key, number, stream);
    round_lanes(&mut s, doubles);
    sum_lanes(&s, key, number, stream, out);
}
