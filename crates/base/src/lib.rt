// The clustering of a round before any group is tried again. Inner form, for the rounds.
#![tactic(auto)]

ghost use Rattle.std.specs.Prelude.{◌≡◌, ◌*◌, length};
ghost use Rattle.distance.specs.Distance.{Readable, dist_at};
ghost use Rattle.candidates.specs.Candidates.{best_of};
ghost use Rattle.candidates.specs.Made.{repeats_given, repeats_moved};
ghost use Rattle.candidates.specs.Steps.{Enough, SearchedBy};
ghost use Rattle.base.specs.Base.{BasedBy};

use candidates::Searched;
use draws::Stop;
use plusplus_seeded::Source;

// How many groups, and the source behind the draws.
#[derive(Drop)]
pub struct Based {
    pub groups: usize,
    pub source: Source,
}

// The best candidate of the book that the rows make.
fn best_of_book(
    book: &[f64],
    n: usize,
    rows: &[usize],
    repeat: usize,
    draws: &[u64],
    src: Source,
    area: &mut [f64],
    labels: &mut [usize],
    scores: &mut [f64],
) -> Result<Searched, Stop>
    requires { Readable book.now n rows.now × Enough (length rows.now) repeat draws.now src × (length area.old ≡ 5 * (length rows.now * length rows.now))
        × (length labels.old ≡ length rows.now) × (length scores.old ≡ length rows.now) }
    ensures { SearchedBy (best_of (dist_at book.now n rows.now) (length rows.now) repeat src.at (repeats_given (dist_at book.now n rows.now) (length rows.now) repeat src draws.now))
        (repeats_moved (dist_at book.now n rows.now) (length rows.now) repeat src) result labels.new scores.new }
{
    let m = rows.len();
    let four = 4 * (m * m);
    areas::book_pairs(book, n, rows, &mut area[..four]);
    candidates::best_candidate(area, m, repeat, draws, src, labels, scores)
}

// Its groups and its scores.
fn base_of_book(
    book: &[f64],
    n: usize,
    rows: &[usize],
    repeat: usize,
    draws: &[u64],
    src: Source,
    area: &mut [f64],
    labels: &mut [usize],
    order: &mut [usize],
    sizes: &mut [usize],
    scores: &mut [f64],
) -> Result<Based, Stop>
    requires { Readable book.now n rows.now × Enough (length rows.now) repeat draws.now src × (length area.old ≡ 5 * (length rows.now * length rows.now))
        × (length labels.old ≡ length rows.now) × (length order.old ≡ length rows.now) × (length sizes.old ≡ length rows.now) × (length scores.old ≡ length rows.now) }
    ensures { BasedBy (length rows.now) (best_of (dist_at book.now n rows.now) (length rows.now) repeat src.at (repeats_given (dist_at book.now n rows.now) (length rows.now) repeat src draws.now))
        (repeats_moved (dist_at book.now n rows.now) (length rows.now) repeat src) result order.new sizes.new scores.new }
{
    let found = best_of_book(book, n, rows, repeat, draws, src, area, labels, scores)?;
    let source = found.source;
    match found.kept {
        // never so: each candidate has a t-stat above -infinity (crates/certain_runs)
        None => Err(Stop::ClusteringFailed),
        Some(_best) => {
            let groups = partition::groups_of(labels, order, sizes);
            Ok(Based { groups, source })
        }
    }
}

// The best candidate's groups and scores, by the draws of the source, for the book that the rows make. Inner form. The areas
// hold anything afterwards, and so do the other lists where there is no base.
pub fn cluster_kmeans_base(
    book: &[f64],
    n: usize,
    rows: &[usize],
    repeat: usize,
    draws: &[u64],
    src: Source,
    area: &mut [f64],
    order: &mut [usize],
    sizes: &mut [usize],
    scores: &mut [f64],
) -> Result<Based, Stop>
    requires { Readable book.now n rows.now × Enough (length rows.now) repeat draws.now src × (length area.old ≡ 5 * (length rows.now * length rows.now))
        × (length order.old ≡ length rows.now) × (length sizes.old ≡ length rows.now) × (length scores.old ≡ length rows.now) }
    ensures { BasedBy (length rows.now) (best_of (dist_at book.now n rows.now) (length rows.now) repeat src.at (repeats_given (dist_at book.now n rows.now) (length rows.now) repeat src draws.now))
        (repeats_moved (dist_at book.now n rows.now) (length rows.now) repeat src) result order.new sizes.new scores.new }
{
    let m = rows.len();
    let mut labels = lists::buffer::<usize, 256>(0);
    base_of_book(
        book,
        n,
        rows,
        repeat,
        draws,
        src,
        area,
        &mut labels[..m],
        order,
        sizes,
        scores,
    )
}
