// Lines of a text.
ghost use Rattle.std.specs.Prelude.{◌≡◌, ◌∷◌, ◌<◌, length};
ghost use Rattle.diversions.specs.Lines.{lines_in};

/// The first line, and what follows its newline.
pub fn cut_line(text: &[u8]) -> (&[u8], &[u8])
    requires { 0 < length text.now }
    ensures cut { lines_in text.now ≡ result.0.now ∷ lines_in result.1.now }
    ensures less { length result.1.now < length text.now }
{
    for (at, b) in text.iter().enumerate() {
        if *b == b'\n' {
            let (line, after) = text.split_at(at);
            return (line, &after[1..]);
        }
    }
    text.split_at(text.len())
}
