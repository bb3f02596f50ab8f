// Mean, variance and standard deviation of a list of doubles.
#![tactic(auto)]

ghost use Rattle.std.specs.Prelude.{◌≡◌, true, ◌<◌, ◌≤◌, length};
ghost use Rattle.std.specs.Float.Ieee.Scale.{finite};
ghost use Rattle.lists.specs.Lists.{cells};
ghost use Rattle.lists.specs.Sums as sums;
ghost use Rattle.stats.specs.Average as average;
ghost use Rattle.stats.specs.Average.{averaged_of};

// The refusal of over 65,536 values.
#[derive(Drop)]
pub struct TooMany;

// What an average answers: its value, or none where it has none.
pub type Average = Result<Option<f64>, TooMany>;

// Whether x is a number with the bits of y, which is a number.
#[tactic(auto, using(lists::proofs::Floats::finite_number))]
fn same_bits(x: f64, y: f64) -> bool
    requires { finite y ≡ true }
    ensures { result ≡ average.same_bits x y }
{
    !x.is_nan() && x.to_bits() == y.to_bits()
}

// Whether each value has the bits of `first`, which is finite.
fn all_same(values: &[f64], first: f64) -> bool
    requires { finite first ≡ true }
    ensures { result ≡ sums.all_to (λ j. average.same_bits (cells values.now j) first) (length values.now) }
{
    values.iter().all(|x| same_bits(*x, first))
}

// Whether the first value is finite and each value has its bits.
#[tactic(auto, using(std::proofs::lemmas::Bool::Decides::nat_tests), unfolding(crate::specs::Average::constant))]
fn is_constant(values: &[f64]) -> bool
    requires { 0 < length values.now }
    ensures { result ≡ average.constant (cells values.now) (length values.now) }
{
    let first = values[0];
    lists::is_finite(first) && all_same(values, first)
}

// The mean of one value or more, at most 65,536. Inner form: 4 is asked by its callers.
pub fn mean_value(values: &[f64]) -> f64
    requires { (0 < length values.now) × (length values.now ≤ average.most_values) }
    ensures { result ≡ average.exact_mean (cells values.now) (length values.now) }
{
    if is_constant(values) {
        return values[0];
    }
    lists::sum_of(values) / lists::count_as_f64(values.len())
}

// The squares of the differences from m, summed from the left.
fn sum_of_squares(values: &[f64], m: f64) -> f64
    ensures { result ≡ sums.sum_to (λ j. sums.square_from m (cells values.now j)) (length values.now) }
{
    let mut sum = 0.0;
    for x in values {
        let d = *x - m;
        sum = sum + d * d;
    }
    sum
}

// The mean; none for an empty list.
#[tactic(auto, using(std::proofs::lemmas::Bool::Decides::nat_tests), unfolding(crate::specs::Average::averaged))]
pub fn mean(values: &[f64]) -> Average
    ensures { averaged_of result ≡ average.mean (cells values.now) (length values.now) }
{
    let n = values.len();
    if 65536 < n {
        return Err(TooMany);
    }
    if n == 0 {
        return Ok(None);
    }
    Ok(Some(mean_value(values)))
}

// The squares of the differences from m, summed, over n - ddof, of more than ddof values, at most 65,536. Inner form: 4 is asked by its
// callers.
pub fn variance_about(values: &[f64], m: f64, ddof: usize) -> f64
    requires { (ddof < length values.now) × (length values.now ≤ average.most_values) }
    ensures { result ≡ average.variance_about m (cells values.now) (length values.now) ddof }
{
    sum_of_squares(values, m) / lists::count_as_f64(values.len() - ddof)
}

// The variance of more than ddof values, at most 65,536. Inner form: 4 is asked by its callers.
fn variance_value(values: &[f64], ddof: usize) -> f64
    requires { (ddof < length values.now) × (length values.now ≤ average.most_values) }
    ensures { result ≡ average.variance_of (cells values.now) (length values.now) ddof }
{
    let m = mean_value(values);
    variance_about(values, m, ddof)
}

// The squared differences from the mean, summed, over n - ddof; none where n is 0 or at most ddof.
#[tactic(auto, using(std::proofs::lemmas::Bool::Decides::nat_tests), unfolding(crate::specs::Average::averaged))]
pub fn variance(values: &[f64], ddof: usize) -> Average
    ensures { averaged_of result ≡ average.variance (cells values.now) (length values.now) ddof }
{
    let n = values.len();
    if 65536 < n {
        return Err(TooMany);
    }
    if n <= ddof {
        return Ok(None);
    }
    Ok(Some(variance_value(values, ddof)))
}

// The root of the variance, where there is one.
pub fn std_dev(values: &[f64], ddof: usize) -> Average
    ensures { averaged_of result ≡ average.deviation (cells values.now) (length values.now) ddof }
{
    Ok(variance(values, ddof)?.map(sqrt::sqrt))
}
