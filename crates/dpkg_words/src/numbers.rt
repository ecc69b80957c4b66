// Numbers among dpkg's words.
ghost use Rattle.std.specs.Prelude.{◌≡◌};
ghost use Rattle.std.specs.Char.{is_ascii_digit};
ghost use Rattle.std.specs.List.{list_all};
ghost use Rattle.dpkg_words.specs.Numbers.{is_number, is_plain_number};

fn are_digits(text: &str) -> bool
    ensures { result ≡ list_all is_ascii_digit text.now }
{
    text.as_bytes().iter().all(u8::is_ascii_digit)
}

fn is_plain_number(text: &str) -> bool
    ensures { result ≡ is_plain_number text.now }
{
    text == "0" || !text.starts_with("0")
}

/// Whether a text is a number of at most nine digits.
pub(crate) fn is_number(text: &str) -> bool
    ensures { result ≡ is_number text.now }
{
    are_digits(text) && is_plain_number(text) && 0 < text.len() && text.len() <= 9
}
