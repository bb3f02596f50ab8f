// The t-statistic and the plain mean of a list of scores.
#![tactic(auto)]

ghost use Rattle.std.specs.Prelude.{◌≡◌, ◌≤◌, length};
ghost use Rattle.lists.specs.Lists.{cells};
ghost use Rattle.stats.specs.Average.{averaged_of, most_values};
ghost use Rattle.tstat.specs.Tstat as spec;

use stats::{Average, TooMany};

// Mean over deviation, with the exception for a deviation of at most 1e-12.
fn ratio(m: f64, s: f64) -> f64
    ensures { result ≡ spec.ratio m s }
{
    if s <= 1e-12 {
        if m > 0.0 {
            return lists::infinity();
        }
        return 0.0;
    }
    m / s
}

// The t-statistic of at most 65,536 values; the mean is worked out once. Inner form: 4 is asked by its callers.
pub fn tstat_value(values: &[f64]) -> f64
    requires { length values.now ≤ most_values }
    ensures { result ≡ spec.tstat_of (cells values.now) (length values.now) }
{
    if values.is_empty() {
        return 0.0;
    }
    let m = stats::mean_value(values);
    let v = stats::variance_about(values, m, 0);
    ratio(m, sqrt::sqrt(v))
}

// Mean over population deviation; 0 of no value.
#[tactic(auto, using(std::proofs::lemmas::Bool::Decides::nat_tests), unfolding(stats::specs::Average::averaged))]
pub fn tstat(values: &[f64]) -> Average
    ensures { averaged_of result ≡ spec.tstat (cells values.now) (length values.now) }
{
    if 65536 < values.len() {
        return Err(TooMany);
    }
    Ok(Some(tstat_value(values)))
}

// The sum over the count of at most 65,536 values. Inner form: 4 is asked by its callers.
pub fn mean_of_value(values: &[f64]) -> f64
    requires { length values.now ≤ most_values }
    ensures { result ≡ spec.plain_mean (cells values.now) (length values.now) }
{
    lists::sum_of(values) / lists::count_as_f64(values.len())
}

// The sum over the count, with no exception for equal values: three values of 0.1 give 0.10000000000000002.
#[tactic(auto, using(std::proofs::lemmas::Bool::Decides::nat_tests), unfolding(stats::specs::Average::averaged))]
pub fn mean_of(values: &[f64]) -> Average
    ensures { averaged_of result ≡ spec.mean_of (cells values.now) (length values.now) }
{
    let n = values.len();
    if 65536 < n {
        return Err(TooMany);
    }
    Ok(Some(mean_of_value(values)))
}
