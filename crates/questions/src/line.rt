// Lines of a text.
ghost use Rattle.std.specs.Prelude.{◌≤◌, ◌≡◌, length};
ghost use Rattle.questions.specs.Lines.{line_end};

// Where the line that begins at `at` ends: at its newline, or at the end of the text.
pub fn line_end(text: &[u8], at: usize) -> usize
    requires { at ≤ length text.now }
    ensures value { result ≡ line_end text.now at }
    ensures lower_bound { (at ≤ result) × (result ≤ length text.now) }
{
    match text_runs::first_of(&text[at..], b'\n') {
        Some(k) => at + k,
        None => text.len(),
    }
}
