//! What a word is: a name, a number or a register.

ghost use Rattle.std.specs.Prelude.{◌≡◌, ℕ, ◌+◌, ◌*◌, ◌<◌, nat_lt, ◌≤◌, ◌∷◌, ◌++◌, length, map};
ghost use Rattle.std.specs.List.{list_all};
ghost use Rattle.std.specs.Char.{digit_value};
ghost use Rattle.asm_words.specs.Words.{is_name, is_name_byte, capped_value, are_digits, digits_number, number_of, unsigned_number, in_range, bits_of, register_among, registers, name_and_number, capped};

/// A number as it is written.
#[derive(Clone, Copy)]
pub struct Number {
    pub negative: bool,
    /// Nothing from 2^64 on.
    pub magnitude: Option<u64>,
}

/// Whether a byte may stand in a name.
pub fn is_name_byte(b: u8) -> bool
    ensures { result ≡ is_name_byte b }
{
    b.is_ascii_alphanumeric() || b == b'_' || b == b'.'
}

fn are_name_bytes(word: &[u8]) -> bool
    ensures { result ≡ list_all is_name_byte word.now }
{
    word.iter().all(|b| is_name_byte(*b))
}

/// Whether a word is a name.
pub fn is_name(word: &[u8]) -> bool
    ensures { result ≡ is_name word.now }
{
    !word.is_empty() && word.len() <= 64 && !word[0].is_ascii_digit() && are_name_bytes(word)
}

fn digit_value(b: u8) -> u8
    ensures { result ≡ digit_value b }
{
    match b {
        b'0'..=b'9' => b - b'0',
        b'A'..=b'Z' => b - 55,
        b'a'..=b'z' => b - 87,
        _ => 36,
    }
}

/// A digit behind the digits of a number.
fn with_digit(value: Option<u64>, radix: u8, digit: u8) -> Option<u64>
    requires { 0 < radix }
    ensures { (n : ℕ) → value ≡ capped n → result ≡ capped (n * radix + digit) }
{
    value?
        .checked_mul(u64::from(radix))?
        .checked_add(u64::from(digit))
}

fn capped_value(radix: u8, digits: &[u8]) -> Option<u64>
    requires { 0 < radix }
    ensures { result ≡ capped_value radix digits.now }
{
    let mut value = Some(0);
    for b in digits {
        value = with_digit(value, radix, digit_value(*b));
    }
    value
}

fn all_below(radix: u8, digits: &[u8]) -> bool
    ensures { result ≡ list_all (λ b. nat_lt (digit_value b) radix) digits.now }
{
    digits.iter().all(|b| digit_value(*b) < radix)
}

fn are_digits(radix: u8, digits: &[u8]) -> bool
    ensures { result ≡ are_digits radix digits.now }
{
    !digits.is_empty() && all_below(radix, digits)
}

fn digits_number(negative: bool, radix: u8, digits: &[u8]) -> Option<Number>
    requires { 0 < radix }
    ensures { result ≡ digits_number negative radix digits.now }
{
    if are_digits(radix, digits) {
        let magnitude = capped_value(radix, digits);
        Some(Number {
            negative,
            magnitude,
        })
    } else {
        None
    }
}

fn unsigned_number(negative: bool, word: &[u8]) -> Option<Number>
    ensures { result ≡ unsigned_number negative word.now }
{
    if word.len() >= 2 && word[0] == b'0' && word[1] == b'x' {
        digits_number(negative, 16, &word[2..])
    } else {
        digits_number(negative, 10, word)
    }
}

/// The number that a word is.
pub fn number_of(word: &[u8]) -> Option<Number>
    ensures { result ≡ number_of word.now }
{
    if !word.is_empty() && word[0] == b'-' {
        unsigned_number(true, &word[1..])
    } else {
        unsigned_number(false, word)
    }
}

/// Whether a number is at least `-below` and at most `above`.
pub fn in_range(number: Number, below: u64, above: u64) -> bool
    ensures { result ≡ in_range below above number }
{
    match number.magnitude {
        Some(magnitude) => magnitude <= if number.negative { below } else { above },
        None => false,
    }
}

/// The number's low 64 bits.
pub fn bits_of(number: Number) -> u64
    ensures { result ≡ bits_of number }
{
    let magnitude = number.magnitude.unwrap_or(0);
    if number.negative && magnitude > 0 {
        u64::MAX - magnitude + 1
    } else {
        magnitude
    }
}

/// A register's name.
pub struct RegisterName {
    pub name: &'static [u8],
    pub number: u8,
}

macro_rules! register {
    ($name:literal, $number:literal) => {
        RegisterName {
            name: $name,
            number: $number,
        }
    };
}

static REGISTERS: [RegisterName; 64] = [
    register!(b"zero", 0),
    register!(b"ra", 1),
    register!(b"sp", 2),
    register!(b"gp", 3),
    register!(b"tp", 4),
    register!(b"t0", 5),
    register!(b"t1", 6),
    register!(b"t2", 7),
    register!(b"s0", 8),
    register!(b"s1", 9),
    register!(b"a0", 10),
    register!(b"a1", 11),
    register!(b"a2", 12),
    register!(b"a3", 13),
    register!(b"a4", 14),
    register!(b"a5", 15),
    register!(b"a6", 16),
    register!(b"a7", 17),
    register!(b"s2", 18),
    register!(b"s3", 19),
    register!(b"s4", 20),
    register!(b"s5", 21),
    register!(b"s6", 22),
    register!(b"s7", 23),
    register!(b"s8", 24),
    register!(b"s9", 25),
    register!(b"s10", 26),
    register!(b"s11", 27),
    register!(b"t3", 28),
    register!(b"t4", 29),
    register!(b"t5", 30),
    register!(b"t6", 31),
    register!(b"x0", 0),
    register!(b"x1", 1),
    register!(b"x2", 2),
    register!(b"x3", 3),
    register!(b"x4", 4),
    register!(b"x5", 5),
    register!(b"x6", 6),
    register!(b"x7", 7),
    register!(b"x8", 8),
    register!(b"x9", 9),
    register!(b"x10", 10),
    register!(b"x11", 11),
    register!(b"x12", 12),
    register!(b"x13", 13),
    register!(b"x14", 14),
    register!(b"x15", 15),
    register!(b"x16", 16),
    register!(b"x17", 17),
    register!(b"x18", 18),
    register!(b"x19", 19),
    register!(b"x20", 20),
    register!(b"x21", 21),
    register!(b"x22", 22),
    register!(b"x23", 23),
    register!(b"x24", 24),
    register!(b"x25", 25),
    register!(b"x26", 26),
    register!(b"x27", 27),
    register!(b"x28", 28),
    register!(b"x29", 29),
    register!(b"x30", 30),
    register!(b"x31", 31),
];

/// The names of the registers.
fn register_names() -> &'static [RegisterName]
    ensures { map name_and_number result.now ≡ registers }
{
    &REGISTERS
}

fn register_among(table: &[RegisterName], word: &[u8]) -> Option<u8>
    ensures { result ≡ register_among (map name_and_number table.now) word.now }
{
    for register in table {
        if register.name == word {
            return Some(register.number);
        }
    }
    None
}

/// The register that a word names.
pub fn register_of(word: &[u8]) -> Option<u8>
    ensures { result ≡ register_among registers word.now }
{
    register_among(register_names(), word)
}
