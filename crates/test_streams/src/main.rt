// Prints published vectors of the ChaCha block function, and draws of StdRng for some seeds. The vectors: RFC 8439, 2.3.2 (20 rounds, one block), and
// draft-strombergson-chacha-test-vectors-01 (12 rounds: TC1, TC2, TC3, of four blocks the first two). The draws are those of the unchanged crate rand 0.10.
#![tactic(auto)]

ghost use Rattle.std.specs.Prelude.{◌≤◌, ◌<◌, ◌+◌, ◌*◌, length};
ghost use Rattle.rng_std.specs.States.{Holds};

// The 16 words from place `at` on, in hex, on one line. What cannot be written, here and below, is left out, and changes neither what follows nor the
// exit status.
fn print_words(rt: HostRuntime, words: &[u32], at: usize)
    requires { (at + 16 ≤ length words.now) × (length words.now ≤ 64) }
{
    for word in &words[at..at + 16] {
        let _ = print!(rt; "{word:08x} ");
    }
    let _ = println!(rt; "");
}

// The words of one block.
fn print_block(rt: HostRuntime, key: [u32; 8], number: u64, stream: u64, doubles: usize) {
    let words = rng_chacha::block(rng_chacha::start(key, number, stream), doubles);
    print_words(rt, &words, 0);
}

// The words of the first two blocks of four, with 12 rounds.
fn print_two(rt: HostRuntime, key: [u32; 8], stream: u64) {
    let mut words = lists::buffer::<u32, 64>(0);
    rng_chacha::four_blocks(key, 0, stream, 6, &mut words);
    print_words(rt, &words, 0);
    print_words(rt, &words, 16);
}

// An index among n and a share, so many times.
fn print_pairs(rt: HostRuntime, rng: &mut [u32], n: u32, times: u64)
    requires { Holds 0 rng.old × (0 < n) × (times ≤ 1000) }
{
    let mut taken = 0;
    for _ in 0..times {
        let index = rng_std::random_range(rng, taken, n);
        let share = rng_std::random_share(rng, index.taken);
        let drawn = index.value;
        let part = share.value;
        let _ = print!(rt; "{drawn} {part} ");
        taken = share.taken;
    }
    let _ = println!(rt; "");
}

// The same for the seed.
fn print_draws(rt: HostRuntime, seed: u64, n: u32, times: u64)
    requires { (0 < n) × (times ≤ 1000) }
{
    let _ = print!(rt; "{seed} ");
    let mut rng = lists::buffer::<u32, 72>(0);
    rng_std::seed_from_u64(seed, 0, &mut rng);
    print_pairs(rt, &mut rng, n, times);
}

fn main(rt: HostRuntime) {
    let counted: [u32; 8] = [
        0x0302_0100,
        0x0706_0504,
        0x0b0a_0908,
        0x0f0e_0d0c,
        0x1312_1110,
        0x1716_1514,
        0x1b1a_1918,
        0x1f1e_1d1c,
    ];
    let zero: [u32; 8] = [0; 8];
    let one: [u32; 8] = [1, 0, 0, 0, 0, 0, 0, 0];
    print_block(
        rt,
        counted,
        0x0900_0000_0000_0001,
        0x0000_0000_4a00_0000,
        10,
    );
    print_two(rt, zero, 0);
    print_two(rt, one, 0);
    print_two(rt, zero, 1);
    print_draws(rt, 42, 12, 40);
    print_draws(rt, 0, 256, 40);
    print_draws(rt, 18446744073709551615, 3, 40);
    print_draws(rt, 1, 1, 10);
    print_draws(rt, 12345678901234567890, 255, 40);
    print_draws(rt, 500346866, 3, 12);
    print_draws(rt, 1220054703, 3, 12);
    print_draws(rt, 137173759, 5, 12);
    print_draws(rt, 4294967296, 100, 20);
}
