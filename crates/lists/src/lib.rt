// Copying, searching, reading and summing of lent lists, lists to work in, and tests on doubles: what the crates above share.
// The inner forms ask for the lengths, which their callers know.
#![tactic(auto)]

ghost use Rattle.std.specs.Prelude.{◌≡◌, ℕ, ◌+◌, ◌*◌, ◌<◌, ◌≤◌, false, length, replicate};
ghost use Rattle.std.specs.Float.{inf};
ghost use Rattle.std.specs.Float.Ieee.Scale.{finite};
ghost use Rattle.lists.specs.Lists.{row, cells, cell_at, listed, matrix_of, put, first_from};
ghost use Rattle.lists.specs.Sums as sums;
ghost use Rattle.lists.specs.Sums.{counted, sum_to};

// Copies the first list over the second. Inner form: they are as long as each other. The library's `copy_from_slice` does the same by `memmove`, which the
// archives for C would then take from outside.
pub fn copy<T: Copy>(from: &[T], to: &mut [T])
    requires { length from.now ≡ length to.old }
    ensures len { length to.new ≡ length to.old }
    ensures after { to.new ≡ from.now }
{
    for (i, x) in from.iter().enumerate() {
        to[i] = *x;
    }
}

// Cells that lie `step` apart, copied one behind the other to a place further on in the same list. Inner form: the
// cells that are read lie in front of `to`.
pub fn gather(xs: &mut [f64], from: usize, step: usize, to: usize, count: usize)
    requires { (to + count ≤ length xs.old) × ((j : ℕ) → j < count → from + j * step < to) }
    ensures { xs.new ≡ put to count xs.old (listed (λ j. cells xs.old (from + j * step)) count) }
{
    for j in 0..count {
        let cell = from + j * step;
        let at = to + j;
        xs[at] = xs[cell];
    }
}

// Row i of a matrix of n rows of n cells, which the list begins with. Inner form.
pub fn row_of(p: &[f64], n: usize, i: usize) -> &[f64]
    requires { (n ≤ 256) × (n * n ≤ length p.now) × (i < n) }
    ensures { result.now ≡ row p.now n i }
{
    let at = i * n;
    let end = at + n;
    &p[at..end]
}

// Column i of a matrix of n rows of n cells, from row 0 on.
fn copy_column(from: &[f64], n: usize, i: usize, out: &mut [f64])
    requires { (n ≤ 256) × (length from.now ≡ n * n) × (i < n) × (length out.old ≡ n) }
    ensures { out.new ≡ listed (λ j. cell_at from.now n j i) n }
{
    for j in 0..n {
        out[j] = from[j * n + i];
    }
}

// The matrix whose rows are the columns of the first, which has n rows of n cells. Inner form.
pub fn transpose(from: &[f64], n: usize, out: &mut [f64])
    requires { (0 < n) × (n ≤ 256) × (length from.now ≡ n * n) × (length out.old ≡ n * n) }
    ensures { out.new ≡ matrix_of (λ i j. cell_at from.now n j i) n }
{
    for i in 0..n {
        let at = i * n;
        let end = at + n;
        copy_column(from, n, i, &mut out[at..end]);
    }
}

// The first place of a number that is not below the limit, and the list's length where there is none.
pub fn first_from(limit: usize, xs: &[usize]) -> usize
    ensures { result ≡ first_from limit xs.now }
{
    for (k, x) in xs.iter().enumerate() {
        if limit <= *x {
            return k;
        }
    }
    xs.len()
}

// x where it is below b, else b.
pub fn lesser(x: f64, b: f64) -> f64
    ensures { result ≡ sums.lesser x b }
{
    if x < b { x } else { b }
}

// A list of N places, with x in each. Only its length is promised: the N elements would stand in every goal, one by one.
pub fn buffer<T: Copy, const N: usize>(x: T) -> [T; N]
    ensures { length result ≡ N }
{
    [x; N]
}

// The same, with the elements promised.
pub fn filled<T: Copy, const N: usize>(value: T) -> [T; N]
    ensures { result ≡ replicate N value }
{
    [value; N]
}

// +infinity.
pub fn infinity() -> f64
    ensures { result ≡ inf false }
{
    1.0 / 0.0
}

// Whether x is neither an infinity nor a NaN.
pub fn is_finite(x: f64) -> bool
    ensures { result ≡ finite x }
{
    let top = infinity();
    if x < top { -top < x } else { false }
}

// A count as a double.
pub fn count_as_f64(n: usize) -> f64
    ensures { result ≡ counted n }
{
    std::num::nearest_u64_to_f64(n as u64)
}

// The values summed from the left, from +0.
pub fn sum_of(values: &[f64]) -> f64
    ensures { result ≡ sum_to (cells values.now) (length values.now) }
{
    let mut sum = 0.0;
    for x in values {
        sum = sum + *x;
    }
    sum
}
