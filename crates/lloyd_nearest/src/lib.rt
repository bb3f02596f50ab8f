// The nearest of some centroids for each item, and the farthest item.
#![tactic(auto)]

ghost use Rattle.std.specs.Prelude.{◌≡◌, cond, ◌<◌, ◌≤◌, ◌*◌, length};
ghost use Rattle.std.specs.Float.Ieee.{lt};
ghost use Rattle.lists.specs.Lists.{listed, row, cells, numbers};
ghost use Rattle.lloyd_nearest.specs.Nearest as near;
ghost use Rattle.lloyd_nearest.specs.Nearest.{nearest_to, farthest_of, same_labels};

// A distance with its place.
#[derive(Drop)]
pub struct Best {
    pub value: f64,
    pub at: usize,
}

// l where x is below b, else `other`.
fn label_of(x: f64, b: f64, l: usize, other: usize) -> usize
    ensures { result ≡ cond (lt x b) l other }
{
    if x < b { l } else { other }
}

// Gives group l each item that is nearer to it than to its own. The two choices are functions, so that the loop has no branch.
fn absorb(row: &[f64], l: usize, dists: &mut [f64], labels: &mut [usize])
    requires { (length dists.old ≡ length row.now) × (length labels.old ≡ length row.now) }
    ensures dists_after { dists.new ≡ listed (λ i. cond (lt (cells row.now i) (cells dists.old i)) (cells row.now i) (cells dists.old i)) (length row.now) }
    ensures labels_after { labels.new ≡ listed (λ i. cond (lt (cells row.now i) (cells dists.old i)) l (numbers labels.old i)) (length row.now) }
{
    for (i, x) in row.iter().enumerate() {
        let b = dists[i];
        labels[i] = label_of(*x, b, l, labels[i]);
        dists[i] = lists::lesser(*x, b);
    }
}

// The nearest group of each item, and its distance: row l of the table has the distances of all items to centroid l. Inner form.
pub fn assign(table: &[f64], k: usize, dists: &mut [f64], labels: &mut [usize])
    requires { (k ≤ length labels.old) × (length labels.old ≤ 256) × (length labels.old * length labels.old ≤ length table.now) × (length dists.old ≡ length labels.old) }
    ensures dists_after { dists.new ≡ listed (λ i. (nearest_to (λ l. cells (row table.now (length labels.old) l) i) k).value) (length labels.old) }
    ensures labels_after { labels.new ≡ listed (λ i. (nearest_to (λ l. cells (row table.now (length labels.old) l) i) k).at) (length labels.old) }
{
    let m = labels.len();
    dists.fill(lists::infinity());
    labels.fill(0);
    for l in 0..k {
        absorb(lists::row_of(table, m, l), l, dists, labels);
    }
}

// The farther of two, the first of equals.
fn farther(b: Best, x: f64, i: usize) -> Best
    ensures { result ≡ near.farther b x i }
{
    if b.value < x {
        return Best { value: x, at: i };
    }
    b
}

// The place of the greatest distance, the lowest of equals. Inner form.
pub fn farthest(dists: &[f64]) -> usize
    requires { 0 < length dists.now }
    ensures { (result ≡ farthest_of dists.now) × (result < length dists.now) }
{
    let mut b = Best {
        value: -lists::infinity(),
        at: 0,
    };
    for (i, x) in dists.iter().enumerate() {
        b = farther(b, *x, i);
    }
    b.at
}

// Whether no label differs. Inner form.
pub fn same_labels(a: &[usize], b: &[usize]) -> bool
    requires { length a.now ≡ length b.now }
    ensures { result ≡ same_labels a.now b.now (length b.now) }
{
    a == b
}
