// Text added at a place of a lent slice: bytes as they are, a number in decimal, a byte in hex.
// Each answers the place after what it added, and needs room for just that.
ghost use Rattle.std.specs.Prelude.{◌≡◌, ◌∷◌, ◌+◌, ◌≤◌, ◌<◌, length};
ghost use Rattle.listing.specs.Text.{decimal, hex, Adds};
ghost use Rattle.listing.specs.Text.{digit as Text·digit};

// Bytes as they are.
pub fn add(out: &mut [u8], place: usize, text: &[u8]) -> usize
    requires { place + length text.now ≤ length out.old }
    ensures { Adds text.now out.old out.new place result }
{
    let mut i = 0;
    while i < text.len() {
        out[place + i] = text[i];
        i += 1;
    }
    place + i
}

// A number in decimal.
pub fn add_decimal(out: &mut [u8], place: usize, n: u64) -> usize
    requires { place + length (decimal n) ≤ length out.old }
    ensures { Adds (decimal n) out.old out.new place result }
{
    let mut digits = [0u8; 20];
    let k = io::decimal(n, &mut digits);
    add(out, place, &digits[..k])
}

// The character of a digit below 16.
pub fn digit(d: u8) -> u8
    requires { d < 16 }
    ensures { result ≡ Text·digit d }
{
    if d < 10 { 48 + d } else { 55 + d }
}

// A blank, and a byte as two hex digits.
pub fn add_hex(out: &mut [u8], place: usize, b: u8) -> usize
    requires { place + 3 ≤ length out.old }
    ensures { Adds (32 ∷ hex b) out.old out.new place result }
{
    let text = [32, digit(b / 16), digit(b % 16)];
    add(out, place, &text)
}
