// Groups from labels and labels from groups. A partition stands in two lists of as many places as there are items: the order has the
// groups one after the other, the sizes how many members each has. Inner forms, for the rounds.
#![tactic(auto)]

ghost use Rattle.std.specs.Prelude.{◌≡◌, cond, ℕ, ◌≤◌, ◌<◌, ◌+◌, length};
ghost use Rattle.lists.specs.Lists.{listed, numbers, put};
ghost use Rattle.partition.specs.Partition.{members, groups_of, joined, has, label_of};
ghost use Rattle.partition.specs.Orders.{sizes_of, cut, Sized};

// The members of group l, by rising row, from place `at` of the order on; answers the place behind them.
fn append_members(labels: &[usize], l: usize, order: &mut [usize], at: usize) -> usize
    requires { (length labels.now ≤ 256) × (at + length (members (numbers labels.now) (length labels.now) l) ≤ length order.old) × (length order.old ≤ 256) }
    ensures value { result ≡ at + length (members (numbers labels.now) (length labels.now) l) }
    ensures order_after { order.new ≡ put at (length (members (numbers labels.now) (length labels.now) l)) order.old
        (members (numbers labels.now) (length labels.now) l) }
{
    let mut to = at;
    for (i, x) in labels.iter().enumerate() {
        if *x != l {
            continue;
        }
        order[to] = i;
        to += 1;
    }
    to
}

// The groups of the labels, in label order, without empty ones; answers how many they are.
pub fn groups_of(labels: &[usize], order: &mut [usize], sizes: &mut [usize]) -> usize
    requires { (length labels.now ≤ 256) × (length order.old ≡ length labels.now) × (length sizes.old ≡ length labels.now)
        × ((i : ℕ) → i < length labels.now → numbers labels.now i < length labels.now) }
    ensures value { result ≡ length (groups_of (numbers labels.now) (length labels.now) (length labels.now)) }
    ensures order_after { order.new ≡ joined (groups_of (numbers labels.now) (length labels.now) (length labels.now)) }
    ensures sizes_after { sizes.new ≡ sizes_of (length labels.now) (groups_of (numbers labels.now) (length labels.now) (length labels.now)) }
{
    let m = labels.len();
    sizes.fill(0);
    let mut at = 0;
    let mut count = 0;
    for l in 0..m {
        let end = append_members(labels, l, order, at);
        if end == at {
            continue;
        }
        sizes[count] = end - at;
        count += 1;
        at = end;
    }
    count
}

// The label g for each of the members.
fn label_members(members: &[usize], g: usize, labels: &mut [usize])
    requires { (j : ℕ) → j < length members.now → numbers members.now j < length labels.old }
    ensures { labels.new ≡ listed (λ i. cond (has members.now i) g (numbers labels.old i)) (length labels.old) }
{
    for i in members {
        labels[*i] = g;
    }
}

// The label of each item: the number of its group.
pub fn labels_from_clusters(order: &[usize], sizes: &[usize], count: usize, labels: &mut [usize])
    requires { Sized (length labels.old) count order.now sizes.now }
    ensures { labels.new ≡ listed (label_of (cut count sizes.now order.now)) (length labels.old) }
{
    labels.fill(0);
    let mut at = 0;
    for (g, size) in sizes[..count].iter().enumerate() {
        let end = at + *size;
        label_members(&order[at..end], g, labels);
        at = end;
    }
}
