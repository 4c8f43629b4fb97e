//! Addresses in printed lines: eight upper-case hexadecimal digits (docs/guide/command-line.md, docs/rules/phases-and-exceptions.md).
ghost use Rattle.std.specs.Prelude.{◌≡◌, ◌<◌};
ghost use Rattle.eh_word.specs.Address.{hex_digit, address_text, ReadsBack};

/// An upper-case hexadecimal digit.
fn hex_digit(n: u32) -> u8
    requires { n < 16 }
    ensures { result ≡ hex_digit n }
{
    let digit = n as u8;
    if digit < 10 {
        b'0' + digit
    } else {
        b'A' - 10 + digit
    }
}

/// An address as eight upper-case hexadecimal digits.
pub fn address_text(n: u32) -> [u8; 8]
    ensures { result ≡ address_text n }
{
    [
        hex_digit(n / 0x1000_0000 % 16),
        hex_digit(n / 0x100_0000 % 16),
        hex_digit(n / 0x10_0000 % 16),
        hex_digit(n / 0x1_0000 % 16),
        hex_digit(n / 0x1000 % 16),
        hex_digit(n / 0x100 % 16),
        hex_digit(n / 0x10 % 16),
        hex_digit(n % 16),
    ]
}

/// The digits of an address, read as a hexadecimal number, give the address.
pub fn addresses_read_back()
    ensures { ReadsBack }
{}
