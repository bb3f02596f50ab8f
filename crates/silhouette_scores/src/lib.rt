// Rousseeuw's silhouette of every item, for all items at a time: group by group, contiguous over the items.
#![tactic(auto)]

ghost use Rattle.std.specs.Prelude.{◌≡◌, cond, ◌&&◌, ℕ, ◌<◌, ◌≤◌, ◌+◌, ◌-◌, length, set};
ghost use Rattle.std.specs.Float.{binary64};
ghost use Rattle.std.specs.Float.Ieee.{add, div, eq, lt};
ghost use Rattle.lists.specs.Lists.{listed, cells, numbers};
ghost use Rattle.lists.specs.Sums.{zero64, counted, lesser, group_size};
ghost use Rattle.silhouette_scores.specs.Scores as scoring;
ghost use Rattle.silhouette_scores.specs.Groups.{distance, at_members, mark_of, Midway, Shape, scores_across};

// A NaN, or -infinity for a group of one.
fn mark_of(count: usize) -> f64
    ensures { result ≡ mark_of count }
{
    if count == 1 {
        return -1.0 / 0.0;
    }
    0.0 / 0.0
}

fn both_zero(a: f64, b: f64) -> bool
    ensures { result ≡ eq a zero64 && eq b zero64 }
{
    a == 0.0 && b == 0.0
}

fn larger(a: f64, b: f64) -> f64
    ensures { result ≡ cond (lt a b) b a }
{
    if a < b { b } else { a }
}

// (b - a) over the larger; 0 where b is not finite, or both are 0.
fn score_of(a: f64, b: f64) -> f64
    ensures { result ≡ scoring.score_of a b }
{
    if !lists::is_finite(b) || both_zero(a, b) {
        return 0.0;
    }
    (b - a) / larger(a, b)
}

// Each cell of the row added to the sum in its place, but for the sum in place j, which is left as it was.
fn add_others(row: &[f64], j: usize, sums: &mut [f64])
    requires { (length row.now ≡ length sums.old) × (j < length sums.old) }
    ensures { sums.new ≡ set (listed (λ i. add binary64 (cells sums.old i) (cells row.now i)) (length sums.old)) j (cells sums.old j) }
{
    let kept = sums[j];
    for (i, x) in row.iter().enumerate() {
        sums[i] = sums[i] + *x;
    }
    sums[j] = kept;
}

// For each item the sum of its distances to the members of group l but itself; and how many members there are.
fn add_members(across: &[f64], labels: &[usize], l: usize, sums: &mut [f64]) -> usize
    requires shape { Shape across.now labels.now }
    requires sums_len { length sums.old ≡ length labels.now }
    ensures sums_after { sums.new ≡ listed (λ i. scoring.group_sum (distance across.now (length labels.now) i) (numbers labels.now) (length labels.now) i l) (length labels.now) }
    ensures value { result ≡ group_size (numbers labels.now) (length labels.now) l }
{
    sums.fill(0.0);
    let m = labels.len();
    let mut count = 0;
    for (j, x) in labels.iter().enumerate() {
        if *x != l {
            continue;
        }
        let row = lists::row_of(across, m, j);
        add_others(row, j, sums);
        count += 1;
    }
    count
}

// Of the members of group l, of which there are `count`: the means from their sums, and the mark in place of the sums.
fn take_means(labels: &[usize], l: usize, count: usize, sums: &mut [f64], own: &mut [f64])
    requires { (0 < count) × (length sums.old ≡ length labels.now) × (length own.old ≡ length labels.now) }
    ensures own_after { own.new ≡ listed (at_members (numbers labels.now) l (λ i. div binary64 (cells sums.old i) (counted (count - 1))) (cells own.old)) (length labels.now) }
    ensures sums_after { sums.new ≡ listed (at_members (numbers labels.now) l (λ i. mark_of count) (cells sums.old)) (length labels.now) }
{
    let others = lists::count_as_f64(count - 1);
    let mark = mark_of(count);
    for (i, x) in labels.iter().enumerate() {
        if *x != l {
            continue;
        }
        own[i] = sums[i] / others;
        sums[i] = mark;
    }
}

// The mean of each sum where it is below what stands in its place.
fn keep_least(sums: &[f64], count: usize, least: &mut [f64])
    requires { length sums.now ≡ length least.old }
    ensures { least.new ≡ listed (λ i. lesser (div binary64 (cells sums.now i) (counted count)) (cells least.old i)) (length least.old) }
{
    let c = lists::count_as_f64(count);
    for (i, x) in sums.iter().enumerate() {
        least[i] = lists::lesser(*x / c, least[i]);
    }
}

// One more group: its mean distances, for all items.
fn add_group(
    across: &[f64],
    labels: &[usize],
    l: usize,
    least: &mut [f64],
    sums: &mut [f64],
    own: &mut [f64],
)
    requires shape { Shape across.now labels.now }
    requires sums_len { length sums.old ≡ length labels.now }
    requires midway { Midway across.now labels.now l least.old own.old }
    ensures { Midway across.now labels.now (l + 1) least.new own.new }
{
    let count = add_members(across, labels, l, sums);
    if count == 0 {
        return;
    }
    take_means(labels, l, count, sums, own);
    keep_least(sums, count, least);
}

// Each item's score from its two means, a in `own` and b in `scores`.
fn finish(own: &[f64], scores: &mut [f64])
    requires { length own.now ≡ length scores.old }
    ensures { scores.new ≡ listed (λ i. scoring.score_of (cells own.now i) (cells scores.old i)) (length scores.old) }
{
    for (i, a) in own.iter().enumerate() {
        scores[i] = score_of(*a, scores[i]);
    }
}

// The score of each item; row j of `across` has the distances of all items to item j, and the labels are below k. Inner form.
// `sums` and `own` are lists to work in, and hold nothing of use afterwards.
pub fn scores_by_label(
    across: &[f64],
    labels: &[usize],
    k: usize,
    scores: &mut [f64],
    sums: &mut [f64],
    own: &mut [f64],
)
    requires shape { Shape across.now labels.now }
    requires by_index { ((i : ℕ) → i < length labels.now → numbers labels.now i < k) × (k ≤ length labels.now) }
    requires scores_len { (length scores.old ≡ length labels.now) × (length sums.old ≡ length labels.now) × (length own.old ≡ length labels.now) }
    ensures { scores.new ≡ scores_across across.now labels.now }
{
    scores.fill(lists::infinity());
    for l in 0..k {
        add_group(across, labels, l, scores, sums, own);
    }
    finish(own, scores);
}
