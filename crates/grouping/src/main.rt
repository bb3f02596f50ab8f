// Reads a book, its repeats and its draws from standard input and prints its grouping, or the number by which it is refused.
// crates/text_program/specs/Program.antt says what is printed for which text.
#![tactic(auto)]

ghost use Rattle.std.specs.Prelude.{◌<◌, length};

fn main() {
    let mut text = io::large_buffer();
    answer_input(&mut text);
}

// Reads a text into `room` and prints the answer to it. A text of more than 22,990 bytes is not in the layout, and `room` takes
// more than that, so what it does not take changes nothing.
// If a read fails, the text read so far is answered: by 11 unless it is whole. If a write fails, the rest is not printed, and
// the program ends.
fn answer_input(room: &mut [u8])
    requires { 22990 < length room.old }
{
    let n = io::read_full(0, room);
    respond(&room[..n]);
}

// Prints the answer to a text.
fn respond(text: &[u8]) {
    let mut out = io::buffer();
    let written = text_program::answer_to(text, &mut out);
    let count = text_written::bytes_of(written);
    io::write_all(1, &out[..count]);
}
