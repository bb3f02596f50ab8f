// The members of groups by the labels of all items: how many each has, in which they changed, and the first one.
// A label is compared with the length before it is used as an index, so nothing is asked of the labels.
#![tactic(auto)]

ghost use Rattle.std.specs.Prelude.{◌≡◌, ◌||◌, eqb, length};
ghost use Rattle.lists.specs.Lists.{listed, numbers, first_to};
ghost use Rattle.lists.specs.Sums.{in_group, group_size};
ghost use Rattle.lloyd_members.specs.Members.{mark_at, moved_mark};

// How many items each group has, of as many groups as the list has places.
pub fn group_sizes(labels: &[usize], sizes: &mut [usize])
    ensures { sizes.new ≡ listed (group_size (numbers labels.now) (length labels.now)) (length sizes.old) }
{
    sizes.fill(0);
    for l in labels {
        if *l < sizes.len() {
            sizes[*l] += 1;
        }
    }
}

// A mark at place l, where there is such a place.
fn mark(marks: &mut [bool], l: usize)
    ensures { marks.new ≡ listed (λ j. eqb j l || mark_at marks.old j) (length marks.old) }
{
    if l < marks.len() {
        marks[l] = true;
    }
}

// For each group whether an item joins or leaves it from the labels `old` to `labels`, of as many groups as the list has places. Inner form.
pub fn mark_moved(old: &[usize], labels: &[usize], marks: &mut [bool])
    requires { length old.now ≡ length labels.now }
    ensures { marks.new ≡ listed (moved_mark old.now labels.now (length labels.now)) (length marks.old) }
{
    marks.fill(false);
    for (i, b) in labels.iter().enumerate() {
        let a = old[i];
        if a == *b {
            continue;
        }
        mark(marks, a);
        mark(marks, *b);
    }
}

// The first member of group l, and how many items there are where it has none.
pub fn first_member(labels: &[usize], l: usize) -> usize
    ensures { result ≡ first_to (in_group (numbers labels.now) l) (length labels.now) }
{
    for (i, x) in labels.iter().enumerate() {
        if *x == l {
            return i;
        }
    }
    labels.len()
}
