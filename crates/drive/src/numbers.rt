//! Numbers in decimal.
ghost use Rattle.std.specs.Prelude.{◌≡◌};
ghost use Rattle.drive.specs.Words.{number_of, connection_of, with_digit};

use local_server::ConnectionNumber;

/// A number below 2^64: at least one digit, and nothing else.
pub(crate) fn number(word: &[u8]) -> Option<u64>
    ensures { result ≡ number_of word.now }
{
    if word.is_empty() {
        return None;
    }
    let mut number = 0;
    let mut rest = word;
    while let Some((byte, others)) = rest.split_first() {
        match with_digit(number, *byte) {
            Some(longer) => number = longer,
            None => return None,
        }
        rest = others;
    }
    Some(number)
}

/// A number with one digit more after it.
fn with_digit(number: u64, byte: u8) -> Option<u64>
    ensures { result ≡ with_digit number byte }
{
    if !byte.is_ascii_digit() {
        return None;
    }
    match number.checked_mul(10) {
        Some(tens) => tens.checked_add(u64::from(byte - b'0')),
        None => None,
    }
}

/// The number of a connection.
pub(crate) fn connection(word: &[u8]) -> Option<ConnectionNumber>
    ensures { result ≡ connection_of word.now }
{
    match number(word) {
        Some(number) if number < 64 => ConnectionNumber::new(number as u8).ok(),
        _ => None,
    }
}
