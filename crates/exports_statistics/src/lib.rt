// What other languages call beside the grouping: the statistics, the check of a book in whole millionths, and the draws of a round.
#![tactic(auto)]

ghost use Rattle.std.specs.Prelude.{◌≡◌, length};
ghost use Rattle.lists.specs.Lists.{cells};
ghost use Rattle.stats.specs.Average as stats;
ghost use Rattle.intake.specs.Intake.{intake_of};
ghost use Rattle.exports_reports.specs.Average.{average_reported};
ghost use Rattle.exports_reports.specs.Book.{book_shape, book_reported};
ghost use Rattle.exports_statistics.specs.Draws.{draws_for};

#[unsafe(no_mangle)]
pub extern "C" fn onc_mean(values: &[f64], average: &mut [f64], answer: &mut [usize]) -> usize
    ensures { record { number = result; answer = answer.new; average = average.new }
        ≡ average_reported (stats.mean (cells values.now) (length values.now)) answer.old average.old }
{
    let a = stats::mean(values);
    exports_reports::report_average(a, average, answer)
}

#[unsafe(no_mangle)]
pub extern "C" fn onc_variance(
    values: &[f64],
    ddof: usize,
    average: &mut [f64],
    answer: &mut [usize],
) -> usize
    ensures { record { number = result; answer = answer.new; average = average.new }
        ≡ average_reported (stats.variance (cells values.now) (length values.now) ddof) answer.old average.old }
{
    let a = stats::variance(values, ddof);
    exports_reports::report_average(a, average, answer)
}

#[unsafe(no_mangle)]
pub extern "C" fn onc_std_dev(
    values: &[f64],
    ddof: usize,
    average: &mut [f64],
    answer: &mut [usize],
) -> usize
    ensures { record { number = result; answer = answer.new; average = average.new }
        ≡ average_reported (stats.deviation (cells values.now) (length values.now) ddof) answer.old average.old }
{
    let a = stats::std_dev(values, ddof);
    exports_reports::report_average(a, average, answer)
}

#[unsafe(no_mangle)]
pub extern "C" fn onc_check_book(
    cells: &[i64],
    rows: usize,
    cols: usize,
    answer: &mut [usize],
) -> usize
    ensures { record { number = result; answer = answer.new }
        ≡ book_reported (book_shape rows cols (length cells.now)) (intake_of cells.now rows cols) answer.old }
{
    let refused = exports_reports::book_refused(rows, cols, cells.len(), answer.len());
    if refused != 0 {
        return refused;
    }
    let a = intake::check_book(cells, rows, cols);
    let number = intake_answers::number_of(a);
    let place = intake_answers::place_of(a);
    exports_reports::report_two(number, place, answer)
}

// The draws that a round of so many names reads for one repeat; 0 where there is no such round.
#[unsafe(no_mangle)]
pub extern "C" fn onc_draws_for(names: usize) -> u64
    ensures { result ≡ draws_for names }
{
    if names < 2 || names > 256 {
        return 0;
    }
    draws::draws_for(names)
}
