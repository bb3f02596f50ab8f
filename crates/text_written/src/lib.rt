// What a call that writes a text answers.
#![tactic(auto)]

ghost use Rattle.std.specs.Prelude.{◌≡◌};
ghost use Rattle.text_written.specs.Answers.{number_of, bytes_of};

// The length of a list is wrong.
#[derive(Drop)]
pub struct ListLength;

// How many bytes were written, or that a list's length is wrong.
pub type Written = Result<usize, ListLength>;

// The table's number; 0 where the text is written.
pub fn number_of(w: Written) -> usize
    ensures { result ≡ number_of w }
{
    match w {
        Ok(_) => 0,
        Err(_) => 6,
    }
}

// How many bytes were written; 0 for a refusal.
pub fn bytes_of(w: Written) -> usize
    ensures { result ≡ bytes_of w }
{
    w.unwrap_or(0)
}
