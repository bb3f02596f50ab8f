// Groups picked out of a partition by their t-stats. Inner form, for the weak groups and the kept ones.
#![tactic(auto)]

ghost use Rattle.std.specs.Prelude.{◌≡◌, cond, not, ◌++◌, ◌<◌, ◌+◌, length, drop};
ghost use Rattle.std.specs.Float.Ieee.{lt};
ghost use Rattle.partition.specs.Partition.{joined};
ghost use Rattle.partition.specs.Orders.{sizes_of, cut, Sized};
ghost use Rattle.quality.specs.Quality.{picked, on_side};

// How many groups were picked, and how many members they have.
#[derive(Drop)]
pub struct Picked {
    pub groups: usize,
    pub items: usize,
}

// Whether a group is picked whose t-stat is the value: below the limit or not, as asked.
fn on_side(value: f64, limit: f64, below: bool) -> bool
    ensures { result ≡ cond (lt value limit) below (not below) }
{
    if value < limit { below } else { !below }
}

// The groups whose t-stat is below the limit, or the others: their members one after the other at the front of `out`, and their sizes.
pub fn pick(
    order: &[usize],
    sizes: &[usize],
    qs: &[f64],
    limit: f64,
    below: bool,
    out: &mut [usize],
    out_sizes: &mut [usize],
) -> Picked
    requires { Sized (length out.old) (length qs.now) order.now sizes.now × (length out_sizes.old ≡ length out.old) }
    ensures groups_value { (result.groups ≡ length (picked (on_side qs.now limit below) (cut (length qs.now) sizes.now order.now)))
        × (result.items ≡ length (joined (picked (on_side qs.now limit below) (cut (length qs.now) sizes.now order.now)))) }
    ensures out_after { out.new ≡ joined (picked (on_side qs.now limit below) (cut (length qs.now) sizes.now order.now))
        ++ drop (length (joined (picked (on_side qs.now limit below) (cut (length qs.now) sizes.now order.now)))) out.old }
    ensures out_sizes_after { out_sizes.new ≡ sizes_of (length out.old) (picked (on_side qs.now limit below) (cut (length qs.now) sizes.now order.now)) }
{
    out_sizes.fill(0);
    let mut at = 0;
    let mut items = 0;
    let mut groups = 0;
    for (g, q) in qs.iter().enumerate() {
        let size = sizes[g];
        let from = at;
        at = from + size;
        if !on_side(*q, limit, below) {
            continue;
        }
        let to = items + size;
        lists::copy(&order[from..at], &mut out[items..to]);
        out_sizes[groups] = size;
        groups += 1;
        items = to;
    }
    Picked { groups, items }
}
