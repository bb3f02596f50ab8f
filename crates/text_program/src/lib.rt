// What the grouping program prints for the text that it reads.
#![tactic(auto)]

ghost use Rattle.std.specs.Prelude.{◌≡◌, ◌*◌, ◌≤◌, length};
ghost use Rattle.text_written.specs.Answers.{refusal_of, bytes_of};
ghost use Rattle.text_answer.specs.Answer.{refusal_fits, written_of};
ghost use Rattle.text_program.specs.Program.{book_text, program_of};

use text_request::RequestError;
use text_written::Written;

// Groups a book of n names with the outputs and the lists to work in, and writes the answer.
fn group_with(
    book: &[f64],
    n: usize,
    repeats: usize,
    draws: &[u64],
    order: &mut [usize],
    sizes: &mut [usize],
    scores: &mut [f64],
    ordered: &mut [f64],
    floats: &mut [f64],
    numbers: &mut [usize],
    out: &mut [u8],
) -> Written
    requires { (n ≤ 12) × (length book.now ≡ n * n) × (length order.old ≡ n) × (length sizes.old ≡ n) × (length scores.old ≡ n) × (length ordered.old ≡ n * n)
        × (4224 ≤ length floats.old) × (3840 ≤ length numbers.old) }
    ensures { record { refused = refusal_of result; count = bytes_of result; out = out.new }
        ≡ written_of (refusal_fits out.old) (book_text n repeats book.now draws.now) out.old }
{
    let answer = onc::get_onc_clusters_with_draws(
        book, n, n, repeats, draws, order, sizes, scores, ordered, floats, numbers,
    );
    match answer {
        Ok(grouped) => {
            text_groups::write_groups(grouped.groups, grouped.draws, order, sizes, scores, out)
        }
        Err(_) => {
            let number = onc_answers::number_of(answer);
            let place = onc_answers::place_of(answer);
            text_answer::write_refusal(number, place, out)
        }
    }
}

// Groups a book of at most 12 names and writes the answer.
fn group(book: &[f64], n: usize, repeats: usize, draws: &[u64], out: &mut [u8]) -> Written
    requires { (n ≤ 12) × (length book.now ≡ n * n) }
    ensures { record { refused = refusal_of result; count = bytes_of result; out = out.new }
        ≡ written_of (refusal_fits out.old) (book_text n repeats book.now draws.now) out.old }
{
    let mut order = lists::buffer::<usize, 12>(0);
    let mut sizes = lists::buffer::<usize, 12>(0);
    let mut scores = lists::buffer::<f64, 12>(0.0);
    let mut ordered = lists::buffer::<f64, 144>(0.0);
    let mut floats = lists::buffer::<f64, 4224>(0.0);
    let mut numbers = lists::buffer::<usize, 3840>(0);
    let size = n * n;
    group_with(
        book,
        n,
        repeats,
        draws,
        &mut order[..n],
        &mut sizes[..n],
        &mut scores[..n],
        &mut ordered[..size],
        &mut floats,
        &mut numbers,
        out,
    )
}

// Writes what the grouping program prints for a text to the front of `out`, which has room for at least 1,024 bytes; a shorter
// one is refused by 6 and kept.
pub fn answer_to(text: &[u8], out: &mut [u8]) -> Written
    ensures { record { refused = refusal_of result; count = bytes_of result; out = out.new }
        ≡ written_of (refusal_fits out.old) (program_of text.now) out.old }
{
    let mut cells = lists::filled::<f64, 144>(0.0);
    let mut draws = lists::filled::<u64, 1024>(0);
    match text_request::read_request(text, &mut cells, &mut draws) {
        Ok(request) => {
            let names = request.names;
            let size = names * names;
            group(
                &cells[..size],
                names,
                request.repeats,
                &draws[..request.draws],
                out,
            )
        }
        Err(RequestError::Fault) => text_answer::write_refusal(11, 0, out),
        // never: the two lists have room for every text of the layout
        Err(RequestError::ListLength) => text_answer::write_refusal(6, 0, out),
    }
}
