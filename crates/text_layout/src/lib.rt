// The layout of a request: three lines of fields, found place by place. Nothing is stored. Inner forms,
// for `read_request`.
#![tactic(auto)]

ghost use Rattle.std.specs.Prelude.{◌≡◌, ◌+◌, ◌^◌, ◌<◌, ◌≤◌};
ghost use Rattle.text_digits.specs.Digits.{run_of, spelled};
ghost use Rattle.text_layout.specs.Layout.{plain as plain_of, small_at, head_of, cell_form, draw_form, line_at, empty_at, lists_of, layout_of};

// How the fields of a line are written: from least to most digits in a base.
#[derive(Clone, Copy)]
pub struct Form {
    pub base: u64,
    pub least: usize,
    pub most: usize,
}

// A run of digits: its number, how many they are, and the place behind them.
#[derive(Clone, Copy)]
pub struct Run {
    pub value: u64,
    pub count: usize,
    pub end: usize,
}

// A number of the first line, and the place behind the byte that ends it.
#[derive(Clone, Copy)]
pub struct Small {
    pub value: usize,
    pub end: usize,
}

// What the first line says, and the place behind it.
#[derive(Clone, Copy)]
pub struct Head {
    pub names: usize,
    pub repeats: usize,
    pub draws: usize,
    pub end: usize,
}

// Names, repeats, count of draws, and the places where the cells and the draws start.
#[derive(Clone, Copy)]
pub struct Layout {
    pub names: usize,
    pub repeats: usize,
    pub draws: usize,
    pub cells_at: usize,
    pub draws_at: usize,
}

// A cell: 16 digits in base 16.
pub fn cell_form() -> Form
    ensures { result ≡ cell_form }
{
    Form {
        base: 16,
        least: 16,
        most: 16,
    }
}

// A draw: 1 to 19 digits in base 10.
pub fn draw_form() -> Form
    ensures { result ≡ draw_form }
{
    Form {
        base: 10,
        least: 1,
        most: 19,
    }
}

// The digits at a place, at most so many.
pub fn run_at(text: &[u8], at: usize, base: u64, most: usize) -> Run
    requires { (base ≤ 16) × (base ^ most ≤ 2 ^ 64) }
    ensures { (result.value ≡ spelled base text.now at result.count) × (result.count ≡ run_of base text.now at most) × (result.end ≡ at + result.count) }
{
    let mut value: u64 = 0;
    let mut end = at;
    for k in 0..most {
        let d = text_digits::digit(text_digits::byte_at(text, end));
        if d >= base {
            return Run {
                value,
                count: k,
                end,
            };
        }
        value = value * base + d;
        end += 1;
    }
    Run {
        value,
        count: most,
        end,
    }
}

// Whether digits are at least one, with no zero in front; `first` is the byte of the first one.
#[tactic(auto, using(std::proofs::lemmas::Bool::Decides::nat_tests), unfolding(crate::specs::Layout::plain))]
fn plain(first: u8, count: usize) -> bool
    ensures { result ≡ plain_of first count }
{
    count > 0 && (first != b'0' || count == 1)
}

// A number of the first line: at most bound, with no zero in front, ended by the byte stop.
#[tactic(auto, using(std::proofs::lemmas::Bool::Decides::nat_tests), unfolding(crate::specs::Layout::small_at))]
fn small_at(text: &[u8], at: usize, bound: u64, stop: u8) -> Option<Small>
    requires { 0 < stop }
    ensures { result ≡ small_at text.now at bound stop }
{
    let run = run_at(text, at, 10, 19);
    if !plain(text_digits::byte_at(text, at), run.count) {
        return None;
    }
    if run.value > bound || text_digits::byte_at(text, run.end) != stop {
        return None;
    }
    Some(Small {
        value: run.value as usize,
        end: run.end + 1,
    })
}

// The first line.
#[tactic(auto, unfolding(crate::specs::Layout::head_of))]
fn head_of(text: &[u8]) -> Option<Head>
    ensures { result ≡ head_of text.now }
{
    let names = small_at(text, 0, 12, b' ')?;
    let repeats = small_at(text, names.end, 0xffff_ffff, b' ')?;
    let draws = small_at(text, repeats.end, 1024, b'\n')?;
    Some(Head {
        names: names.value,
        repeats: repeats.value,
        draws: draws.value,
        end: draws.end,
    })
}

// A line of n fields: the place behind it.
fn line_at(text: &[u8], form: Form, at: usize, n: usize) -> Option<usize>
    requires { (form.base ≤ 16) × (form.base ^ form.most ≤ 2 ^ 64) }
    ensures { result ≡ line_at form text.now at n }
{
    if n == 0 {
        return empty_at(text, at);
    }
    let mut q = at;
    for t in 0..n {
        let run = run_at(text, q, form.base, form.most);
        if run.count < form.least {
            return None;
        }
        if text_digits::byte_at(text, run.end) != text_digits::stop_of(t, n) {
            return None;
        }
        q = run.end + 1;
    }
    Some(q)
}

// An empty line.
fn empty_at(text: &[u8], at: usize) -> Option<usize>
    ensures { result ≡ empty_at text.now at }
{
    if text_digits::byte_at(text, at) != b'\n' {
        return None;
    }
    Some(at + 1)
}

// The three lines.
#[tactic(auto, using(crate::proofs::Found::head_names), unfolding(crate::specs::Layout::layout_of))]
pub fn layout_of(text: &[u8]) -> Option<Layout>
    ensures { result ≡ layout_of text.now }
{
    let head = head_of(text)?;
    lists_of(text, head)
}

// The two lists, and nothing behind them.
#[tactic(auto, using(std::proofs::lemmas::Bool::Decides::nat_tests), unfolding(crate::specs::Layout::lists_of))]
fn lists_of(text: &[u8], head: Head) -> Option<Layout>
    requires { head.names ≤ 12 }
    ensures { result ≡ lists_of text.now head.names head.repeats head.draws head.end }
{
    let draws_at = line_at(text, cell_form(), head.end, head.names * head.names)?;
    let end = line_at(text, draw_form(), draws_at, head.draws)?;
    if end != text.len() {
        return None;
    }
    Some(Layout {
        names: head.names,
        repeats: head.repeats,
        draws: head.draws,
        cells_at: head.end,
        draws_at,
    })
}
