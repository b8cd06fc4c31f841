// The bytes of a formula's text, one by one, and the words of its letters and constants.
ghost use Rattle.std.specs.Prelude.{◌≡◌, true, ◌+◌, ◌*◌, ◌<◌, length, get_or};
ghost use Rattle.formula.specs.Grammar.{is_digit, are_digits};
ghost use Rattle.formula.specs.Reader.{is_letter};
ghost use Rattle.formula.specs.File.{letter_word, digit_value, constant_word};

// The byte at a place, 0 past the end.
pub fn byte_at(text: &[u8], i: usize) -> u8
    ensures { result ≡ get_or text.now i 0 }
{
    if i < text.len() { text[i] } else { 0 }
}

// Whether a byte is a letter, a to h.
pub fn is_letter(b: u8) -> bool
    ensures { result ≡ is_letter b }
{
    if b < b'a' {
        return false;
    }
    b <= b'h'
}

// Four bytes as a word, the top byte first.
fn word(a: u8, b: u8, c: u8, d: u8) -> u32
    ensures { result ≡ ((a * 256 + b) * 256 + c) * 256 + d }
{
    ((a as u32 * 256 + b as u32) * 256 + c as u32) * 256 + d as u32
}

// The word of letter k, 0 for a.
pub fn letter_word(letters: &[u8], k: usize) -> u32
    requires { (length letters.now ≡ 32) × (k < 8) }
    ensures { result ≡ letter_word letters.now k }
{
    let i = 4 * k;
    word(letters[i], letters[i + 1], letters[i + 2], letters[i + 3])
}

// Whether a byte is a hex digit, 0 to 9 or A to F.
fn is_digit(b: u8) -> bool
    ensures { result ≡ is_digit b }
{
    if b < b'0' {
        return false;
    }
    if b <= b'9' {
        return true;
    }
    if b < b'A' {
        return false;
    }
    b <= b'F'
}

// Whether all bytes are hex digits.
pub fn are_digits(s: &[u8]) -> bool
    ensures { result ≡ are_digits s.now }
{
    let mut i = 0;
    while i < s.len() {
        if !is_digit(s[i]) {
            return false;
        }
        i += 1;
    }
    true
}

// The value of a hex digit.
fn digit(b: u8) -> u8
    requires { is_digit b ≡ true }
    ensures { (result ≡ digit_value b) × (result < 16) }
{
    if b <= b'9' {
        return b - b'0';
    }
    b - b'A' + 10
}

// Two hex digits as a byte.
fn pair(b: u8, c: u8) -> u8
    requires { (is_digit b ≡ true) × (is_digit c ≡ true) }
    ensures { result ≡ digit_value b * 16 + digit_value c }
{
    digit(b) * 16 + digit(c)
}

// Eight hex digits as a word.
pub fn hex_word(s: &[u8]) -> u32
    requires { (length s.now ≡ 8) × (are_digits s.now ≡ true) }
    ensures { result ≡ constant_word s.now }
{
    word(
        pair(s[0], s[1]),
        pair(s[2], s[3]),
        pair(s[4], s[5]),
        pair(s[6], s[7]),
    )
}
