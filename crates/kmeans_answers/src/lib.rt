// What the k-means leaves answer, and what each of them does before it starts and after it ends.
#![tactic(auto)]

ghost use Rattle.std.specs.Prelude.{◌≡◌, ◌≤◌, ltb, length};
ghost use Rattle.refusals.specs.Table.{work_doubles, wiped, work_numbers, wiped_numbers};
ghost use Rattle.draws.specs.Counts.{seeding_of};
ghost use Rattle.kmeans_answers.specs.declared.KmeansError.TheVariants.{Stopped};
ghost use Rattle.kmeans_answers.specs.Answers.{error_of, number_of, place_of, refusal_of, read_of};
ghost use Rattle.kmeans_answers.specs.Leaf.{leaf_refusal, lists_fit};

use draws::Stop;
use refusals::Cause;

// The first row of the table that applies.
#[derive(Clone, Copy)]
pub enum KmeansError {
    InvalidCorrelationMatrix,
    TooLarge,
    CellCount,
    ListLength,
    GroupCount,
    CentreOutOfRange(usize),
    Stopped(Stop),
}

// What a leaf answers: the number of draws read, or the row of the table that refuses the call.
pub type Kmeans = Result<usize, KmeansError>;

// The same row of the table; a number out of range is that of a centre.
impl From<Cause> for KmeansError {
    ghost from_gives = { λ c e. e ≡ error_of c };

    fn from(c: Cause) -> KmeansError {
        match c {
            Cause::InvalidCorrelationMatrix => KmeansError::InvalidCorrelationMatrix,
            Cause::TooLarge => KmeansError::TooLarge,
            Cause::CellCount => KmeansError::CellCount,
            Cause::ListLength => KmeansError::ListLength,
            Cause::OutOfRange(p) => KmeansError::CentreOutOfRange(p),
        }
    }
}

impl From<Stop> for KmeansError {
    ghost from_gives = { λ s e. e ≡ Stopped s };

    fn from(s: Stop) -> KmeansError {
        KmeansError::Stopped(s)
    }
}

// The table's number; 0 where nothing is refused.
pub fn number_of(a: Kmeans) -> usize
    ensures { result ≡ number_of a }
{
    match a {
        Ok(_) => 0,
        Err(KmeansError::InvalidCorrelationMatrix) => 2,
        Err(KmeansError::TooLarge) => 4,
        Err(KmeansError::CellCount) => 5,
        Err(KmeansError::ListLength) => 6,
        Err(KmeansError::GroupCount) => 29,
        Err(KmeansError::CentreOutOfRange(_)) => 10,
        Err(KmeansError::Stopped(s)) => draws::stop_number(s),
    }
}

// The table's place; 0 where it names none.
pub fn place_of(a: Kmeans) -> usize
    ensures { result ≡ place_of a }
{
    match a {
        Err(KmeansError::CentreOutOfRange(p)) => p,
        Err(KmeansError::Stopped(s)) => draws::stop_place(s),
        _ => 0,
    }
}

// The draws read; 0 for a refusal.
pub fn read_of(a: Kmeans) -> usize
    ensures { result ≡ read_of a }
{
    match a {
        Ok(read) => read,
        Err(_) => 0,
    }
}

// The first row that keeps every list, of `cells` cells of n items, lists that fit or not, k groups, and the place of
// the first bad centre among `count`.
pub fn check(
    cells: usize,
    n: usize,
    fits: bool,
    k: usize,
    bad: usize,
    count: usize,
) -> Result<(), KmeansError>
    ensures { refusal_of result ≡ leaf_refusal cells n fits k bad count }
{
    refusals::check(cells, n, n, fits, 0, 0)?;
    if k < 2 || n < k {
        return Err(KmeansError::GroupCount);
    }
    if bad < count {
        return Err(KmeansError::CentreOutOfRange(bad));
    }
    Ok(())
}

// Whether the output list has its size and the working lists have room; asked of at most 256 items.
pub fn lists_fit(n: usize, out: usize, size: usize, floats: usize, numbers: usize) -> bool
    ensures { n ≤ 256 → result ≡ lists_fit n out size floats numbers }
{
    out == size && refusals::has_room(floats, n) && refusals::has_numbers(numbers, n)
}

// Whether there are fewer draws than k centres take. Inner form: k from 1 to 256.
pub fn too_few(draws: usize, k: usize) -> bool
    requires { (1 ≤ k) × (k ≤ 256) }
    ensures { result ≡ ltb draws (seeding_of k) }
{
    draws < draws::draws_of(k)
}

// The front parts of both working lists, zero. Inner form.
pub fn wipe(n: usize, floats: &mut [f64], numbers: &mut [usize])
    requires { (n ≤ 256) × (work_doubles n ≤ length floats.old) × (work_numbers n ≤ length numbers.old) }
    ensures { (floats.new ≡ wiped n floats.old) × (numbers.new ≡ wiped_numbers n numbers.old) }
{
    refusals::wipe_doubles(n, floats);
    let count = 320 * n;
    numbers[..count].fill(0);
}
