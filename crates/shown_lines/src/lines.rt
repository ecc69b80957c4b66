// Texts as they are shown in lines.
ghost use Rattle.std.specs.Prelude.{◌≡◌, ◌<◌, ◌++◌, IfOk, OnOk, encode_utf8, string_bytes};
ghost use Rattle.std.specs.Char.{digit_char};
ghost use Rattle.shown_lines.specs.Lines.{byte_digits, is_control, line, shown, shown_byte};

use std::alloc::{AllocError, Global};

fn is_control(byte: u8) -> bool
    ensures { result ≡ is_control byte }
{
    byte < b' ' || byte == 127
}

// A digit in base 16.
fn digit(value: u8) -> char
    requires { value < 16 }
    ensures value { result ≡ digit_char value }
    ensures ascii { result < 128 }
{
    if value < 10 {
        (b'0' + value) as char
    } else {
        (b'a' - 10 + value) as char
    }
}

fn add_digits(text: &mut String, byte: u8) -> Result<(), AllocError>
    ensures { OnOk result (string_bytes text.new ≡ string_bytes text.old ++ byte_digits byte) }
{
    text.push_str("\\x")?;
    text.push(digit(byte / 16))?;
    text.push(digit(byte % 16))
}

fn add_shown_byte(text: &mut String, byte: u8) -> Result<(), AllocError>
    requires { byte < 128 }
    ensures { OnOk result (string_bytes text.new ≡ string_bytes text.old ++ shown_byte byte) }
{
    if is_control(byte) {
        return add_digits(text, byte);
    }
    text.push(byte as char)
}

fn add_shown(text: &mut String, character: char) -> Result<(), AllocError>
    ensures { OnOk result (string_bytes text.new ≡ string_bytes text.old ++ shown
        (encode_utf8 character)) }
{
    if !character.is_ascii() {
        return text.push(character);
    }
    add_shown_byte(text, character as u32 as u8)
}

/// A text as it is shown in a line. A text is UTF-8, so that no byte of it is part of no character.
pub fn shown(alloc: Global, text: &str) -> Result<String, AllocError>
    ensures { IfOk result (λ shown_text. string_bytes shown_text ≡ shown text.now) }
{
    let mut all = String::new(alloc);
    for character in text.chars() {
        add_shown(&mut all, character)?;
    }
    Ok(all)
}

/// The line with this text.
pub fn line(alloc: Global, text: &str) -> Result<String, AllocError>
    ensures { IfOk result (λ printed. string_bytes printed ≡ line text.now) }
{
    let mut all = shown(alloc, text)?;
    all.push_str("\n")?;
    Ok(all)
}
