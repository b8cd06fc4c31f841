// The digits of a sum's magnitude.
ghost use Rattle.std.specs.Prelude.{◌≡◌, ◌<◌, length};
ghost use Rattle.sheet_figures.specs.Digits.{hex_digit, hex_digits, sum_digits};
ghost use Rattle.sheet_figures.specs.Limbs.{le};

// The character of a hex digit, upper case.
fn hex(d: u8) -> u8
    requires { d < 16 }
    ensures { result ≡ hex_digit d }
{
    if d < 10 {
        return 48 + d;
    }
    55 + d
}

// 24 bytes as 48 digits, the highest first.
pub fn put_digits(out: &mut [u8], size: [u8; 24])
    requires { length out.old ≡ sum_digits }
    ensures { out.new ≡ hex_digits sum_digits (le size) }
{
    let mut i = 0;
    while i < 24 {
        let b = size[23 - i];
        out[2 * i] = hex(b / 16);
        out[2 * i + 1] = hex(b % 16);
        i += 1;
    }
}
