// Texts that are cut in two.
ghost use Rattle.std.specs.Prelude.{◌≡◌, option_map};
ghost use Rattle.dpkg_words.specs.Cutting.{behind, cut_at};

/// What stands behind a front.
pub(crate) fn behind<'a>(front: &str, text: &'a str) -> Option<&'a str>
    ensures { option_map (λ s. s.now) result ≡ behind front.now text.entry.now }
{
    text.strip_prefix(front)
}

/// What stands before the first `=`, and what behind it.
pub(crate) fn cut_at_equals(text: &str) -> Option<(&str, &str)>
    ensures { option_map (λ parts. (parts.0.now, parts.1.now)) result ≡ cut_at 61 text.now }
{
    text.split_once('=')
}

/// What stands before the first colon, and what behind it.
pub(crate) fn cut_at_colon(text: &str) -> Option<(&str, &str)>
    ensures { option_map (λ parts. (parts.0.now, parts.1.now)) result ≡ cut_at 58 text.now }
{
    text.split_once(':')
}
