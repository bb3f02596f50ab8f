// Asks for the grouping of a book of 256 names and of one of 257, every cell 1, with lists of their lengths and no draws.
// 256 rows pass: the run is refused by 7, for its draws. 257 are refused by 4.
#![tactic(auto)]

ghost use Rattle.std.specs.Prelude.{◌≤◌};

use onc_answers::Onc;

// The answer for a book of n names.
fn asked(n: usize) -> Onc
    requires { n ≤ 257 }
{
    let book = lists::buffer::<f64, 66049>(1.0);
    let draws = [0u64; 0];
    let mut order = lists::buffer::<usize, 257>(0);
    let mut sizes = lists::buffer::<usize, 257>(0);
    let mut scores = lists::buffer::<f64, 257>(0.0);
    let mut ordered = lists::buffer::<f64, 66049>(1.0);
    let mut floats = lists::buffer::<f64, 594184>(0.0);
    let mut numbers = lists::buffer::<usize, 82240>(0);
    let size = n * n;
    onc::get_onc_clusters_with_draws(
        &book[..size],
        n,
        n,
        1,
        &draws,
        &mut order[..n],
        &mut sizes[..n],
        &mut scores[..n],
        &mut ordered[..size],
        &mut floats,
        &mut numbers,
    )
}

// Prints the answer. A line that cannot be written is left out, and changes neither the next one nor the exit status.
fn print_answer(rt: HostRuntime, n: usize)
    requires { n ≤ 257 }
{
    let a = asked(n);
    let number = onc_answers::number_of(a);
    let place = onc_answers::place_of(a);
    let _ = println!(rt; "{n} names: refused {number} at {place}");
}

fn main(rt: HostRuntime) {
    print_answer(rt, 256);
    print_answer(rt, 257);
}
