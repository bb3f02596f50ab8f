// What a call on lent lists answers, the checks that every such call makes, in the table's order, and what it leaves in
// its working list of doubles.
#![tactic(auto)]

ghost use Rattle.std.specs.Prelude.{◌≡◌, false, ◌≤◌, ◌<◌, ◌*◌, leb, eqb, length};
ghost use Rattle.refusals.specs.Table.{number_of, place_of, refusal_of, refusal, work_doubles, wiped, work_numbers};

// The first row of the table that applies.
#[derive(Clone, Copy)]
pub enum Cause {
    InvalidCorrelationMatrix,
    TooLarge,
    CellCount,
    ListLength,
    OutOfRange(usize),
}

// The answer of a call that gives no value: Ok, or the row of the table that refuses it.
pub type Answer = Result<(), Cause>;

// The table's number; 0 where nothing is refused.
pub fn number_of(a: Answer) -> usize
    ensures { result ≡ number_of a }
{
    match a {
        Ok(()) => 0,
        Err(Cause::InvalidCorrelationMatrix) => 2,
        Err(Cause::TooLarge) => 4,
        Err(Cause::CellCount) => 5,
        Err(Cause::ListLength) => 6,
        Err(Cause::OutOfRange(_k)) => 10,
    }
}

// The table's place; 0 where it names none.
pub fn place_of(a: Answer) -> usize
    ensures { result ≡ place_of a }
{
    match a {
        Err(Cause::OutOfRange(k)) => k,
        _ => 0,
    }
}

// Whether a list has the length of a matrix of m rows, for at most 256 rows; false for more, where 4 comes first.
pub fn is_square(length: usize, m: usize) -> bool
    ensures { (m ≤ 256 → result ≡ eqb length (m * m)) × (256 < m → result ≡ false) }
{
    m <= 256 && length == m * m
}

// Whether a working list of doubles has room for m names; false for more than 256, where 4 comes first.
pub fn has_room(length: usize, m: usize) -> bool
    ensures { (m ≤ 256 → result ≡ leb (work_doubles m) length) × (256 < m → result ≡ false) }
{
    m <= 256 && 8 * (m * m) + 256 * m <= length
}

// The same of a working list of whole numbers.
pub fn has_numbers(length: usize, m: usize) -> bool
    ensures { (m ≤ 256 → result ≡ leb (work_numbers m) length) × (256 < m → result ≡ false) }
{
    m <= 256 && 320 * m <= length
}

// Sets the front part of a working list of doubles for m names to zero. Inner form.
pub fn wipe_doubles(m: usize, floats: &mut [f64])
    requires { (m ≤ 256) × (work_doubles m ≤ length floats.old) }
    ensures { floats.new ≡ wiped m floats.old }
{
    let work = 8 * (m * m) + 256 * m;
    floats[..work].fill(0.0);
}

// The first row that applies: `cells` cells of a book of n columns, of which m rows are read, other lists that fit or
// not, and the place of the first bad number among `count`.
#[tactic(auto, using(std::proofs::lemmas::Bool::Decides::nat_tests), unfolding(crate::specs::Table::refusal, crate::specs::Table::whenever, crate::specs::Table::unless))]
pub fn check(cells: usize, n: usize, m: usize, fits: bool, bad: usize, count: usize) -> Answer
    ensures { refusal_of result ≡ refusal cells n m fits bad count }
{
    if n < 2 || m < 2 {
        return Err(Cause::InvalidCorrelationMatrix);
    }
    if n > 256 || m > 256 {
        return Err(Cause::TooLarge);
    }
    if cells != n * n {
        return Err(Cause::CellCount);
    }
    if !fits {
        return Err(Cause::ListLength);
    }
    if bad < count {
        return Err(Cause::OutOfRange(bad));
    }
    Ok(())
}
