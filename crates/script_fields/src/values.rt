// What stands in one word: numbers, and parts round a byte.
ghost use Rattle.std.specs.Prelude.{◌≡◌, ◌<◌, ◌^◌, ◌≢◌, ℕ, nat_eq, decimal, IfSome, IfNone, option_map};
ghost use Rattle.std.specs.List.{position};
ghost use Rattle.std.specs.Str.{bytes_eq};
ghost use Rattle.script_grammar.specs.Words.{number_of, number_below, port_number, byte_number, split_at};
ghost use Rattle.script_fields.specs.Left.{parts_of};

// Whether the number is written so.
fn is_decimal(word: &[u8], number: u64) -> bool
    ensures { result ≡ bytes_eq word.now (decimal number) }
{
    word == itoa::Buffer::new().format(number).as_bytes()
}

fn parsed(word: &[u8]) -> Option<u64>
    ensures some { IfSome result (λ n. (n < 2 ^ 64) × (word.now ≡ decimal n)) }
    ensures none { IfNone result ((n : ℕ) → n < 2 ^ 64 → word.now ≢ decimal n) }
{
    let Ok(text) = str::from_utf8(word) else {
        return None;
    };
    let Ok(number) = text.parse::<u64>() else {
        return None;
    };
    if is_decimal(word, number) {
        Some(number)
    } else {
        None
    }
}

/// The number that the word writes as printing does: without a sign or a leading zero.
pub fn number_of(word: &[u8]) -> Option<u64>
    ensures { result ≡ number_of word.now }
{
    parsed(word)
}

// The same below a limit.
fn number_below(limit: u64, word: &[u8]) -> Option<u64>
    ensures { result ≡ number_below limit word.now }
{
    match number_of(word) {
        Some(number) if number < limit => Some(number),
        _ => None,
    }
}

/// The number of a port: at most 65,535.
pub fn port_number(word: &[u8]) -> Option<u16>
    ensures { result ≡ port_number word.now }
{
    match number_below(65_536, word) {
        Some(number) => Some(number as u16),
        None => None,
    }
}

/// The number of one byte: at most 255.
pub fn byte_number(word: &[u8]) -> Option<u8>
    ensures { result ≡ byte_number word.now }
{
    match number_below(256, word) {
        Some(number) => Some(number as u8),
        None => None,
    }
}

// Where the byte stands first.
fn first_place(sep: u8, text: &[u8]) -> Option<usize>
    ensures { result ≡ position (λ b. nat_eq b sep) text.now }
{
    text.iter().position(|b| *b == sep)
}

/// What stands before the first such byte, and what stands behind it.
pub fn split_at(sep: u8, text: &[u8]) -> Option<(&[u8], &[u8])>
    ensures { option_map parts_of result ≡ split_at sep text.now }
{
    match first_place(sep, text) {
        Some(at) => Some((&text[..at], &text[at + 1..])),
        None => None,
    }
}
