// Rousseeuw's silhouette of every item, from the pair distances and a label for each item.
#![tactic(auto)]

ghost use Rattle.std.specs.Prelude.{◌≡◌, ℕ, ◌<◌, ◌≤◌, ◌*◌, length};
ghost use Rattle.lists.specs.Lists.{listed, numbers};
ghost use Rattle.refusals.specs.Table.{refusal_of, work_doubles, wiped};
ghost use Rattle.silhouette_scores.specs.Groups.{Shape, scores_across};
ghost use Rattle.silhouette.specs.Leaf.{score_at, lists_fit, silhouettes_of};

use refusals::Answer;

// The score of each item, with lists of its own to work in.
fn score_across(across: &[f64], n: usize, labels: &[usize], scores: &mut [f64])
    requires shape { Shape across.now labels.now }
    requires by_index { (i : ℕ) → i < length labels.now → numbers labels.now i < n }
    requires n_value { (n ≡ length labels.now) × (length scores.old ≡ length labels.now) }
    ensures { scores.new ≡ scores_across across.now labels.now }
{
    let mut sums = lists::buffer::<f64, 256>(0.0);
    let mut own = lists::buffer::<f64, 256>(0.0);
    silhouette_scores::scores_by_label(across, labels, n, scores, &mut sums[..n], &mut own[..n]);
}

// The same from the pair distances; the working list is left zero at its front.
fn score_checked(
    pairwise: &[f64],
    n: usize,
    labels: &[usize],
    scores: &mut [f64],
    floats: &mut [f64],
)
    requires n_nonzero { (0 < n) × (n ≤ 256) × (length pairwise.now ≡ n * n) × (length labels.now ≡ n) × (length scores.old ≡ n) × (work_doubles n ≤ length floats.old) }
    requires by_index { (i : ℕ) → i < n → numbers labels.now i < n }
    ensures scores_after { scores.new ≡ listed (score_at pairwise.now n labels.now) n }
    ensures floats_after { floats.new ≡ wiped n floats.old }
{
    let count = n * n;
    lists::transpose(pairwise, n, &mut floats[..count]);
    score_across(&floats[..count], n, labels, scores);
    refusals::wipe_doubles(n, floats);
}

// Whether the lists have n labels, n scores and room to work in; asked of at most 256 items.
fn lists_fit(n: usize, labels: usize, scores: usize, floats: usize) -> bool
    ensures { n ≤ 256 → result ≡ lists_fit n labels scores floats }
{
    labels == n && scores == n && refusals::has_room(floats, n)
}

// The silhouette of each item. A refusal leaves every list as it was; else the working list is left zero at its front.
pub fn silhouette_from_pairwise(
    pairwise: &[f64],
    n: usize,
    labels: &[usize],
    scores: &mut [f64],
    floats: &mut [f64],
) -> Answer
    ensures { record { answer = refusal_of result; out = scores.new; floats = floats.new }
        ≡ silhouettes_of pairwise.now n labels.now scores.old floats.old }
{
    let fits = lists_fit(n, labels.len(), scores.len(), floats.len());
    let bad = lists::first_from(n, labels);
    refusals::check(pairwise.len(), n, n, fits, bad, labels.len())?;
    score_checked(pairwise, n, labels, scores, floats);
    Ok(())
}
