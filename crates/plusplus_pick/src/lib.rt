// What a draw picks as one centre more of k-means++, what the weights total with the pick as a centre too, and the better of two picks. Inner
// forms, for the trials.
#![tactic(auto)]

ghost use Rattle.std.specs.Prelude.{◌≡◌, ◌<◌, length};
ghost use Rattle.lists.specs.Lists.{cells};
ghost use Rattle.lists.specs.Sums.{lesser, sum_to};
ghost use Rattle.plusplus_pick.specs.Potentials as spec;
ghost use Rattle.plusplus_pick.specs.Potentials.{RunningSums};

// A pick, with its potential: the total of the weights with it as a centre too.
#[derive(Drop)]
pub struct Trial {
    pub potential: f64,
    pub pick: usize,
}

// The lesser of two, a NaN giving way.
pub fn lesser_number(a: f64, b: f64) -> f64
    ensures { result ≡ spec.lesser_number a b }
{
    if b < a {
        return b;
    }
    if a != a {
        return b;
    }
    a
}

// The running weight of each item, and the total.
pub fn sum_weights(weights: &[f64], sums: &mut [f64]) -> f64
    requires { length sums.old ≡ length weights.now }
    ensures { (result ≡ sum_to (cells weights.now) (length weights.now)) × RunningSums sums.new weights.now }
{
    let mut sum = 0.0;
    for (i, w) in weights.iter().enumerate() {
        sum = sum + *w;
        sums[i] = sum;
    }
    sum
}

// The first place where a sum exceeds x, else the last.
fn reached(sums: &[f64], x: f64) -> usize
    requires { 0 < length sums.now }
    ensures { result ≡ spec.first_over (cells sums.now) x (length sums.now) }
{
    for (i, s) in sums.iter().enumerate() {
        if *s > x {
            return i;
        }
    }
    sums.len() - 1
}

// What a draw must be below.
pub fn limit(total: f64, m: usize) -> u64
    ensures { result ≡ spec.limit total m }
{
    if total > 0.0 {
        return 9007199254740992;
    }
    m as u64
}

// What a draw picks, by the running weights.
pub fn pick(sums: &[f64], total: f64, d: u64) -> usize
    requires { (0 < length sums.now) × (d < spec.limit total (length sums.now)) }
    ensures { result ≡ spec.pick_by (cells sums.now) total (length sums.now) d }
{
    if total > 0.0 {
        return reached(sums, draws::share_of(d) * total);
    }
    d as usize
}

// The total of the weights with the item of the row as a centre too.
pub fn potential(weights: &[f64], squares: &[f64]) -> f64
    requires { length squares.now ≡ length weights.now }
    ensures { result ≡ sum_to (λ i. spec.lesser_number (cells weights.now i) (cells squares.now i)) (length weights.now) }
{
    let mut sum = 0.0;
    for (i, w) in weights.iter().enumerate() {
        sum = sum + lesser_number(*w, squares[i]);
    }
    sum
}

// Two potentials.
#[derive(Drop)]
pub struct Potentials {
    pub first: f64,
    pub second: f64,
}

// Two potentials where no weight is a NaN, side by side: an addition waits only for the one before it in its own sum.
fn two_least(weights: &[f64], a: &[f64], b: &[f64]) -> Potentials
    requires { (length a.now ≡ length weights.now) × (length b.now ≡ length weights.now) }
    ensures { (result.first ≡ sum_to (λ i. lesser (cells a.now i) (cells weights.now i)) (length weights.now))
        × (result.second ≡ sum_to (λ i. lesser (cells b.now i) (cells weights.now i)) (length weights.now)) }
{
    let mut first = 0.0;
    let mut second = 0.0;
    for (i, w) in weights.iter().enumerate() {
        first = first + lists::lesser(a[i], *w);
        second = second + lists::lesser(b[i], *w);
    }
    Potentials { first, second }
}

// Two potentials, by the total of the weights: where it is a number, no weight is a NaN.
pub fn two_potentials(weights: &[f64], total: f64, a: &[f64], b: &[f64]) -> Potentials
    requires { (length a.now ≡ length weights.now) × (length b.now ≡ length weights.now) × (total ≡ sum_to (cells weights.now) (length weights.now)) }
    ensures { (result.first ≡ sum_to (λ i. spec.lesser_number (cells weights.now i) (cells a.now i)) (length weights.now))
        × (result.second ≡ sum_to (λ i. spec.lesser_number (cells weights.now i) (cells b.now i)) (length weights.now)) }
{
    if total != total {
        return Potentials {
            first: potential(weights, a),
            second: potential(weights, b),
        };
    }
    two_least(weights, a, b)
}

// The potential where no weight is a NaN, by plain comparisons.
fn one_least(weights: &[f64], a: &[f64]) -> f64
    requires { length a.now ≡ length weights.now }
    ensures { result ≡ sum_to (λ i. lesser (cells a.now i) (cells weights.now i)) (length weights.now) }
{
    let mut sum = 0.0;
    for (i, w) in weights.iter().enumerate() {
        sum = sum + lists::lesser(a[i], *w);
    }
    sum
}

// The potential, by the total of the weights: where it is a number, no weight is a NaN.
pub fn potential_by(weights: &[f64], total: f64, a: &[f64]) -> f64
    requires { (length a.now ≡ length weights.now) × (total ≡ sum_to (cells weights.now) (length weights.now)) }
    ensures { result ≡ sum_to (λ i. spec.lesser_number (cells weights.now i) (cells a.now i)) (length weights.now) }
{
    if total == total {
        return one_least(weights, a);
    }
    potential(weights, a)
}

// Four potentials.
#[derive(Drop)]
pub struct FourPotentials {
    pub first: f64,
    pub second: f64,
    pub third: f64,
    pub fourth: f64,
}

// Four potentials where no weight is a NaN, side by side: each weight is read once for the four.
fn four_least(weights: &[f64], a: &[f64], b: &[f64], c: &[f64], d: &[f64]) -> FourPotentials
    requires { (length a.now ≡ length weights.now) × (length b.now ≡ length weights.now) × (length c.now ≡ length weights.now) × (length d.now ≡ length weights.now) }
    ensures { (result.first ≡ sum_to (λ i. lesser (cells a.now i) (cells weights.now i)) (length weights.now))
        × (result.second ≡ sum_to (λ i. lesser (cells b.now i) (cells weights.now i)) (length weights.now))
        × (result.third ≡ sum_to (λ i. lesser (cells c.now i) (cells weights.now i)) (length weights.now))
        × (result.fourth ≡ sum_to (λ i. lesser (cells d.now i) (cells weights.now i)) (length weights.now)) }
{
    let mut p = 0.0;
    let mut q = 0.0;
    let mut s = 0.0;
    let mut t = 0.0;
    for (i, w) in weights.iter().enumerate() {
        p = p + lists::lesser(a[i], *w);
        q = q + lists::lesser(b[i], *w);
        s = s + lists::lesser(c[i], *w);
        t = t + lists::lesser(d[i], *w);
    }
    FourPotentials {
        first: p,
        second: q,
        third: s,
        fourth: t,
    }
}

// Four potentials, by the total of the weights: where it is a number, no weight is a NaN.
pub fn four_potentials(
    weights: &[f64],
    total: f64,
    a: &[f64],
    b: &[f64],
    c: &[f64],
    d: &[f64],
) -> FourPotentials
    requires { (length a.now ≡ length weights.now) × (length b.now ≡ length weights.now) × (length c.now ≡ length weights.now) × (length d.now ≡ length weights.now) × (total ≡ sum_to (cells weights.now) (length weights.now)) }
    ensures { (result.first ≡ sum_to (λ i. spec.lesser_number (cells weights.now i) (cells a.now i)) (length weights.now))
        × (result.second ≡ sum_to (λ i. spec.lesser_number (cells weights.now i) (cells b.now i)) (length weights.now))
        × (result.third ≡ sum_to (λ i. spec.lesser_number (cells weights.now i) (cells c.now i)) (length weights.now))
        × (result.fourth ≡ sum_to (λ i. spec.lesser_number (cells weights.now i) (cells d.now i)) (length weights.now)) }
{
    if total == total {
        return four_least(weights, a, b, c, d);
    }
    FourPotentials {
        first: potential(weights, a),
        second: potential(weights, b),
        third: potential(weights, c),
        fourth: potential(weights, d),
    }
}

pub fn better(b: Trial, t: Trial) -> Trial
    ensures { result ≡ spec.better b t }
{
    if t.potential < b.potential {
        return t;
    }
    b
}
