//! Hexadecimal digits of either case.
ghost use Rattle.std.specs.Prelude.{◌≡◌, ◌<◌, true};
ghost use Rattle.std.specs.List.{list_all};
ghost use Rattle.plant_tables.specs.Hex.{is_hex_digit, hex_digit};

fn is_hex_digit(byte: u8) -> bool
    ensures { result ≡ is_hex_digit byte }
{
    b'0' <= byte && byte <= b'9' || b'A' <= byte && byte <= b'F' || b'a' <= byte && byte <= b'f'
}

/// Whether each byte of a word is a hexadecimal digit of either case.
pub fn are_hex_digits(word: &[u8]) -> bool
    ensures { result ≡ list_all is_hex_digit word.now }
{
    word.iter().all(|byte| is_hex_digit(*byte))
}

/// The value of such a digit.
pub fn hex_digit(byte: u8) -> u16
    requires { is_hex_digit byte ≡ true }
    ensures value { result ≡ hex_digit byte }
    ensures small { result < 16 }
{
    if byte <= b'9' {
        u16::from(byte - b'0')
    } else if byte <= b'F' {
        u16::from(byte - b'A') + 10
    } else {
        u16::from(byte - b'a') + 10
    }
}
