// Whether each line that is printed is to be an object of JSON.
ghost use Rattle.std.specs.Prelude.{◌≡◌, map, string_bytes};
ghost use Rattle.command_words.specs.Objects.{wants_json};

/// Whether the words ask for lines that are objects of JSON; behind `--` no word is a flag.
pub fn wants_json(words: &[String]) -> bool
    ensures { result ≡ wants_json (map string_bytes words.now) }
{
    for word in words {
        if word.as_str() == "--" {
            return false;
        }
        if word.as_str() == "--json" {
            return true;
        }
    }
    false
}
