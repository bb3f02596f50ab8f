// What the calls for other languages report: numbers, places and averages in the lists that the caller lends for them.
#![tactic(auto)]

ghost use Rattle.std.specs.Prelude.{◌≡◌, cond, false, [], ◌∷◌, eqb, length};
ghost use Rattle.stats.specs.Average.{averaged_of};
ghost use Rattle.onc_answers.specs.Answers.{number_of, place_of, groups_of, read_of};
ghost use Rattle.onc_checks.specs.Checks.{shape_of};
ghost use Rattle.exports_reports.specs.Average.{number_without, average_reported};
ghost use Rattle.exports_reports.specs.Book.{book_shape};

use onc_answers::Onc;
use stats::Average;

// 0 where the list for the answer has four places; else the number by which the grouping is refused: 1, 2, 4, 5 or 6.
pub fn grouping_refused(
    repeat: usize,
    rows: usize,
    cols: usize,
    cells: usize,
    places: usize,
) -> usize
    ensures { result ≡ cond (eqb places 4) 0 (shape_of repeat rows cols cells false).number }
{
    if places == 4 {
        return 0;
    }
    match onc_checks::check(repeat, rows, cols, cells, false) {
        Ok(()) => 0,
        Err(e) => onc_answers::number_of(Err(e)),
    }
}

// The number, the place, the groups and the draws read, in a list of four; the number.
pub fn report_grouping(a: Onc, answer: &mut [usize]) -> usize
    requires { length answer.old ≡ 4 }
    ensures { (result ≡ number_of a) × (answer.new ≡ number_of a ∷ place_of a ∷ groups_of a ∷ read_of a ∷ []) }
{
    let number = onc_answers::number_of(a);
    answer[0] = number;
    answer[1] = onc_answers::place_of(a);
    answer[2] = onc_answers::groups_of(a);
    answer[3] = onc_answers::read_of(a);
    number
}

// Two numbers, in a list of two; the first.
pub fn report_two(first: usize, second: usize, answer: &mut [usize]) -> usize
    requires { length answer.old ≡ 2 }
    ensures { (result ≡ first) × (answer.new ≡ first ∷ second ∷ []) }
{
    answer[0] = first;
    answer[1] = second;
    first
}

// The number by which a statistic is refused where its lists do not fit: 4 or 6.
fn average_refused(a: Average) -> usize
    ensures { result ≡ number_without (averaged_of a) }
{
    match a {
        Ok(_) => 6,
        Err(_) => 4,
    }
}

// The average in a list of one, where there is one; the number and how many averages there are in a list of two; the number.
pub fn report_average(a: Average, average: &mut [f64], answer: &mut [usize]) -> usize
    ensures { record { number = result; answer = answer.new; average = average.new }
        ≡ average_reported (averaged_of a) answer.old average.old }
{
    if average.len() != 1 || answer.len() != 2 {
        return average_refused(a);
    }
    match a {
        Ok(Some(x)) => {
            average[0] = x;
            report_two(0, 1, answer)
        }
        Ok(None) => report_two(0, 0, answer),
        Err(_) => report_two(4, 0, answer),
    }
}

// 0 where the list for the answer has two places; else the number by which the check of a book is refused: 2, 4, 5 or 6.
pub fn book_refused(rows: usize, cols: usize, cells: usize, places: usize) -> usize
    ensures { result ≡ cond (eqb places 2) 0 (book_shape rows cols cells).number }
{
    if places == 2 {
        return 0;
    }
    refusals::number_of(intake::check_shape(rows, cols, cells, false))
}
