// Words of a line, and the numbers that they give.
ghost use Rattle.std.specs.Prelude.{◌≡◌, ◌≤◌, IfSome, option_map};
ghost use Rattle.stat_overrides.specs.Words.{cut_at, id_in, mode_in, number_of, number_with};

/// What stands before the first such byte, and what behind it.
pub(crate) fn cut_at(sign: u8, text: &[u8]) -> Option<(&[u8], &[u8])>
    ensures { option_map (λ parts. (parts.0.now, parts.1.now)) result ≡ cut_at sign text.now }
{
    for (at, byte) in text.iter().enumerate() {
        if *byte == sign {
            let (front, back) = text.split_at(at);
            return Some((front, &back[1..]));
        }
    }
    None
}

// A number with one digit more.
fn number_with(base: u64, limit: u64, value: u64, digit: u8) -> Option<u64>
    requires base { base ≤ 10 }
    requires limit { limit ≤ 4294967295 }
    requires value { value ≤ limit }
    ensures exact { result ≡ number_with base limit value digit }
    ensures within { IfSome result (λ n. n ≤ limit) }
{
    if digit < b'0' {
        return None;
    }
    let more = (digit - b'0') as u64;
    if base <= more {
        return None;
    }
    let next = value * base + more;
    if limit < next {
        return None;
    }
    Some(next)
}

// The number of digits.
fn number_of(base: u64, limit: u64, digits: &[u8]) -> Option<u64>
    requires base { base ≤ 10 }
    requires limit { limit ≤ 4294967295 }
    ensures exact { result ≡ number_of base limit digits.now }
    ensures within { IfSome result (λ n. n ≤ limit) }
{
    if digits.is_empty() {
        return None;
    }
    let mut value: u64 = 0;
    for digit in digits {
        match number_with(base, limit, value, *digit) {
            Some(next) => value = next,
            None => return None,
        }
    }
    Some(value)
}

/// The number of a user or group.
pub(crate) fn id_in(digits: &[u8]) -> Option<u32>
    ensures { result ≡ id_in digits.now }
{
    match number_of(10, 4_294_967_294, digits) {
        Some(number) => Some(number as u32),
        None => None,
    }
}

/// The mode of a word.
pub(crate) fn mode_in(digits: &[u8]) -> Option<u16>
    ensures { result ≡ mode_in digits.now }
{
    match number_of(8, 0o7777, digits) {
        Some(number) => Some(number as u16),
        None => None,
    }
}
