// The text that the grouping program writes: a grouping, or a refusal.
#![tactic(auto)]

ghost use Rattle.std.specs.Prelude.{◌≡◌, true, ◌&&◌, ◌+◌, ◌*◌, ◌≤◌, map, leb, eqb, length};
ghost use Rattle.bits.specs.Bits.{bits_of};
ghost use Rattle.text_writing.specs.Stores.{Wrote};
ghost use Rattle.text_written.specs.Answers.{refusal_of, bytes_of};
ghost use Rattle.text_answer.specs.Answer.{line_text, sizes_text, grouped_text, refused_text, room, most_names, grouping_fits, refusal_fits, written_of};

use text_written::{ListLength, Written};

// The least length of a list that an answer is written to.
const ROOM: usize = 1024;

// Each `put_` function below writes from a place on, and answers the place behind what it wrote.
// The labels as a line, in decimal.
fn put_labels(out: &mut [u8], at: usize, labels: &[usize]) -> usize
    requires { at + 21 * length labels.now + 1 ≤ length out.old }
    ensures { Wrote out.old out.new at (line_text 10 labels.now) result }
{
    let n = labels.len();
    if n == 0 {
        return text_writing::put_byte(out, at, b'\n');
    }
    let mut p = at;
    for (t, label) in labels.iter().enumerate() {
        p = text_writing::put_entry(out, p, *label as u64, 10, t, n);
    }
    p
}

// The bits of the scores as a line, in hex digits.
fn put_scores(out: &mut [u8], at: usize, scores: &[f64]) -> usize
    requires { at + 21 * length scores.now + 1 ≤ length out.old }
    ensures { Wrote out.old out.new at (line_text 16 (map bits_of scores.now)) result }
{
    let n = scores.len();
    if n == 0 {
        return text_writing::put_byte(out, at, b'\n');
    }
    let mut p = at;
    for (t, score) in scores.iter().enumerate() {
        p = text_writing::put_entry(out, p, bits::bits_of(*score), 16, t, n);
    }
    p
}

// The first line of a grouping.
fn put_sizes(out: &mut [u8], names: u64, groups: u64, draws: u64) -> usize
    requires { 82 ≤ length out.old }
    ensures { Wrote out.old out.new 0 (sizes_text names groups draws) result }
{
    let p = text_writing::put_field(out, 0, b"names ", names);
    let q = text_writing::put_field(out, p, b" groups ", groups);
    let e = text_writing::put_field(out, q, b" draws ", draws);
    text_writing::put_byte(out, e, b'\n')
}

fn put_grouping(
    groups: usize,
    draws: usize,
    labels: &[usize],
    scores: &[f64],
    out: &mut [u8],
) -> usize
    requires { grouping_fits labels.now scores.now out.old ≡ true }
    ensures { Wrote out.old out.new 0 (grouped_text groups draws labels.now scores.now) result }
{
    let p = put_sizes(out, labels.len() as u64, groups as u64, draws as u64);
    let q = put_labels(out, p, labels);
    put_scores(out, q, scores)
}

fn put_refused(out: &mut [u8], number: u64, place: u64) -> usize
    requires { room ≤ length out.old }
    ensures { Wrote out.old out.new 0 (refused_text number place) result }
{
    let p = text_writing::put_field(out, 0, b"refused ", number);
    let q = text_writing::put_field(out, p, b" at ", place);
    text_writing::put_byte(out, q, b'\n')
}

// Whether a grouping of so many labels and scores is written to a list of so many bytes.
fn grouping_fits(labels: usize, scores: usize, out: usize) -> bool
    ensures { result ≡ leb labels most_names && (eqb scores labels && leb room out) }
{
    labels <= 12 && scores == labels && out >= ROOM
}

// Writes a grouping to the front of out, as three lines: sizes, labels, scores by their bits. The labels are written as
// they are; nothing is asked of them.
pub fn write_grouping(
    groups: usize,
    draws: usize,
    labels: &[usize],
    scores: &[f64],
    out: &mut [u8],
) -> Written
    ensures { record { refused = refusal_of result; count = bytes_of result; out = out.new }
        ≡ written_of (grouping_fits labels.now scores.now out.old) (grouped_text groups draws labels.now scores.now) out.old }
{
    if !grouping_fits(labels.len(), scores.len(), out.len()) {
        return Err(ListLength);
    }
    Ok(put_grouping(groups, draws, labels, scores, out))
}

// Writes a refusal to the front of out: its number and its place.
pub fn write_refusal(number: usize, place: usize, out: &mut [u8]) -> Written
    ensures { record { refused = refusal_of result; count = bytes_of result; out = out.new }
        ≡ written_of (refusal_fits out.old) (refused_text number place) out.old }
{
    if out.len() < ROOM {
        return Err(ListLength);
    }
    Ok(put_refused(out, number as u64, place as u64))
}
