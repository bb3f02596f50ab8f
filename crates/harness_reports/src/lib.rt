// What the calls of the k-means leaves report for the harness, in the list that it lends for the answer.
#![tactic(auto)]

ghost use Rattle.std.specs.Prelude.{◌≡◌, cond, false, [], ◌∷◌, eqb, length};
ghost use Rattle.refusals.specs.Table.{refusal};
ghost use Rattle.kmeans_answers.specs.Answers.{number_of, place_of, read_of};

use kmeans_answers::Kmeans;

// 0 where the list for the answer has three places; else the number by which a k-means leaf is refused: 2, 4, 5 or 6.
pub fn kmeans_refused(cells: usize, n: usize, places: usize) -> usize
    ensures { result ≡ cond (eqb places 3) 0 (refusal cells n n false 0 0).number }
{
    if places == 3 {
        return 0;
    }
    refusals::number_of(refusals::check(cells, n, n, false, 0, 0))
}

// The number, the place and the draws read, in a list of three; the number.
pub fn report_kmeans(a: Kmeans, answer: &mut [usize]) -> usize
    requires { length answer.old ≡ 3 }
    ensures { (result ≡ number_of a) × (answer.new ≡ number_of a ∷ place_of a ∷ read_of a ∷ []) }
{
    let number = kmeans_answers::number_of(a);
    answer[0] = number;
    answer[1] = kmeans_answers::place_of(a);
    answer[2] = kmeans_answers::read_of(a);
    number
}
