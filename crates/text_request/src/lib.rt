// The text that the grouping program reads: names, repeats and the count of draws; the cells; the draws.
// The layout is looked at first, so that a text with a fault leaves the lists as they were.
#![tactic(auto)]

ghost use Rattle.std.specs.Prelude.{◌≡◌, true, length};
ghost use Rattle.lists.specs.Lists.{listed};
ghost use Rattle.lists.specs.Sums.{all_to};
ghost use Rattle.bits.specs.Bits.{double_of};
ghost use Rattle.text_layout.specs.Layout.{cell_form, draw_form, field_ok, value_of};
ghost use Rattle.text_request.specs.Request.{number_of, answer_of, request_of};

// What a request says.
#[derive(Clone, Copy)]
pub struct Request {
    pub names: usize,
    pub repeats: usize,
    pub draws: usize,
}

// The table's rows for a list that is too short, and for a text that is not in the layout.
#[derive(Clone, Copy)]
pub enum RequestError {
    ListLength,
    Fault,
}

// The table's number; 0 for a request that was read.
pub fn number_of(r: Result<Request, RequestError>) -> usize
    ensures { result ≡ number_of r }
{
    match r {
        Ok(_) => 0,
        Err(RequestError::ListLength) => 6,
        Err(RequestError::Fault) => 11,
    }
}

// The doubles of the cells of a line, as many as out takes.
fn fill_cells(text: &[u8], at: usize, out: &mut [f64])
    requires { all_to (field_ok cell_form text.now at (length out.old)) (length out.old) ≡ true }
    ensures { out.new ≡ listed (λ t. double_of (value_of cell_form text.now at t)) (length out.old) }
{
    let form = text_layout::cell_form();
    let mut q = at;
    for x in out.iter_mut() {
        let run = text_layout::run_at(text, q, form.base, form.most);
        *x = bits::double_of(run.value);
        q = run.end + 1;
    }
}

// The draws of a line, as many as out takes.
fn fill_draws(text: &[u8], at: usize, out: &mut [u64])
    requires { all_to (field_ok draw_form text.now at (length out.old)) (length out.old) ≡ true }
    ensures { out.new ≡ listed (value_of draw_form text.now at) (length out.old) }
{
    let form = text_layout::draw_form();
    let mut q = at;
    for x in out.iter_mut() {
        let run = text_layout::run_at(text, q, form.base, form.most);
        *x = run.value;
        q = run.end + 1;
    }
}

// Reads a request: the doubles of the cells and the draws go to the front of the two lists. A text that is not in the
// layout, or that says more than the lists take, leaves both as they were.
pub fn read_request(
    text: &[u8],
    cells: &mut [f64],
    draws: &mut [u64],
) -> Result<Request, RequestError>
    ensures { record { answer = answer_of result; cells = cells.new; draws = draws.new } ≡ request_of text.now cells.old draws.old }
{
    let layout = text_layout::layout_of(text).ok_or(RequestError::Fault)?;
    let size = layout.names * layout.names;
    let count = layout.draws;
    if cells.len() < size {
        return Err(RequestError::ListLength);
    }
    if draws.len() < count {
        return Err(RequestError::ListLength);
    }
    fill_cells(text, layout.cells_at, &mut cells[..size]);
    fill_draws(text, layout.draws_at, &mut draws[..count]);
    Ok(Request {
        names: layout.names,
        repeats: layout.repeats,
        draws: count,
    })
}
