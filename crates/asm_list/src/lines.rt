//! The lines of a listing.

ghost use Rattle.std.specs.Prelude.{◌≡◌, ◌+◌, ◌*◌, ◌/◌, ◌%◌, ◌^◌, ◌<◌, ◌++◌, ℕ, OnOk};
ghost use Rattle.asm_list.specs.Listing.{hexadecimal_digit, digit_at, eight_digits, main_line, service_line, word_name, word_line};

use crate::names::inst_name;
use itoa::Buffer;
use rv_inst::decode;
use std::alloc::AllocError;

fn hexadecimal_digit(digit: u8) -> u8
    requires { digit < 16 }
    ensures { result ≡ hexadecimal_digit digit }
{
    if digit < 10 { b'0' + digit } else { 87 + digit }
}

/// The digit of a number that counts units of 2^shift.
fn digit_at(n: u32, shift: u32) -> u8
    requires { shift < 32 }
    ensures { result ≡ digit_at n (2 ^ shift) }
{
    hexadecimal_digit(((n >> shift) & 0xf) as u8)
}

/// Appends a number's eight digits.
#[tactic(auto, unfolding(crate::specs::Listing::eight_digits))]
fn push_digits(out: &mut Vec<u8>, n: u32) -> Result<(), AllocError>
    ensures { OnOk result (out.new.items ≡ out.old.items ++ eight_digits n) }
{
    let digits = [
        digit_at(n, 28),
        digit_at(n, 24),
        digit_at(n, 20),
        digit_at(n, 16),
        digit_at(n, 12),
        digit_at(n, 8),
        digit_at(n, 4),
        digit_at(n, 0),
    ];
    out.extend_from_slice(&digits)
}

/// Appends the line that says where the main thread starts.
pub fn push_main(out: &mut Vec<u8>, address: u32) -> Result<(), AllocError>
    ensures { OnOk result (out.new.items ≡ out.old.items ++ main_line address) }
{
    out.extend_from_slice(b"main ")?;
    push_digits(out, address)?;
    out.extend_from_slice(b"\n")
}

/// Appends the line of a service.
pub fn push_service(out: &mut Vec<u8>, number: u8, address: u32) -> Result<(), AllocError>
    ensures { OnOk result (out.new.items ≡ out.old.items ++ service_line (number, address)) }
{
    out.extend_from_slice(b"service ")?;
    out.extend_from_slice(Buffer::new().format(number).as_bytes())?;
    out.extend_from_slice(b" ")?;
    push_digits(out, address)?;
    out.extend_from_slice(b"\n")
}

fn word_name(word: u32) -> &'static [u8]
    ensures { result.now ≡ word_name word }
{
    match decode(word) {
        Some(inst) => inst_name(&inst),
        None => b"-",
    }
}

/// Appends the line of a word.
pub fn push_word(out: &mut Vec<u8>, address: u32, word: u32) -> Result<(), AllocError>
    ensures { OnOk result (out.new.items ≡ out.old.items ++ word_line address word) }
{
    push_digits(out, address)?;
    out.extend_from_slice(b" ")?;
    push_digits(out, word)?;
    out.extend_from_slice(b" ")?;
    out.extend_from_slice(word_name(word))?;
    out.extend_from_slice(b"\n")
}
