// The text of a grouping by the order and the sizes of its groups.
#![tactic(auto)]

ghost use Rattle.std.specs.Prelude.{◌≡◌, ◌≤◌, length, take};
ghost use Rattle.partition.specs.Orders.{Sized, cut};
ghost use Rattle.partition.specs.Partition.{label_of};
ghost use Rattle.lists.specs.Lists.{listed};
ghost use Rattle.text_written.specs.Answers.{refusal_of, bytes_of};
ghost use Rattle.text_answer.specs.Answer.{grouped_text, refusal_fits, written_of};

use text_written::Written;

// The label of each name, in front of a list for 12 names, from the order and the sizes of the groups.
fn labels_of(order: &[usize], sizes: &[usize], groups: usize) -> [usize; 12]
    requires { (length order.now ≤ 12) × Sized (length order.now) groups order.now sizes.now }
    ensures { (12 ≡ length result) × (take (length order.now) result ≡ listed (label_of (cut groups sizes.now order.now)) (length order.now)) }
{
    let n = order.len();
    let mut labels = lists::buffer::<usize, 12>(0);
    partition::labels_from_clusters(order, sizes, groups, &mut labels[..n]);
    labels
}

// Writes a grouping by the order and the sizes of its groups. Inner form.
pub fn write_groups(
    groups: usize,
    draws: usize,
    order: &[usize],
    sizes: &[usize],
    scores: &[f64],
    out: &mut [u8],
) -> Written
    requires { (length order.now ≤ 12) × Sized (length order.now) groups order.now sizes.now × (length scores.now ≡ length order.now) }
    ensures { record { refused = refusal_of result; count = bytes_of result; out = out.new }
        ≡ written_of (refusal_fits out.old)
        (grouped_text groups draws (listed (label_of (cut groups sizes.now order.now)) (length order.now)) scores.now) out.old }
{
    let n = order.len();
    let labels = labels_of(order, sizes, groups);
    text_answer::write_grouping(groups, draws, &labels[..n], scores, out)
}
