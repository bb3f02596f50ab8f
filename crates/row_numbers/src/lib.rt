// The row numbers of an inner book and of the book above it, and the translation of the one into the other.
#![tactic(auto)]

ghost use Rattle.std.specs.Prelude.{◌≡◌, ℕ, ◌<◌, length};
ghost use Rattle.lists.specs.Lists.{numbers};
ghost use Rattle.row_numbers.specs.Rows.{rows_of};

// A row number in an inner book, which is a list of rows of the book above: the Rust's `local_idx`.
#[derive(Drop)]
pub struct LocalRow(pub usize);

// The row number of the same name in the book above.
#[derive(Drop)]
pub struct BookRow(pub usize);

// The one translation: the row that stands at the local number in the list of rows. Inner form.
pub fn mapped(rows: &[usize], local: LocalRow) -> BookRow
    requires { local.0 < length rows.now }
    ensures { result.0 ≡ numbers rows.now local.0 }
{
    let at = local.0;
    BookRow(rows[at])
}

// Each local number of the first list, translated, in the second. Inner form.
pub fn translate(rows: &[usize], locals: &[usize], out: &mut [usize])
    requires { ((i : ℕ) → i < length locals.now → numbers locals.now i < length rows.now) × (length out.old ≡ length locals.now) }
    ensures { out.new ≡ rows_of rows.now locals.now }
{
    for (i, local) in locals.iter().enumerate() {
        out[i] = mapped(rows, LocalRow(*local)).0;
    }
}
