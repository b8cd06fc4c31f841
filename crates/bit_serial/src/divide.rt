// A quotient a bit at a time: the divisor, shifted, is taken from what is left of the dividend
// where it goes, the highest place first.
ghost use Rattle.std.specs.Prelude.{◌≡◌, ◌^◌, ◌≤◌, ◌<◌};
ghost use Rattle.bit_serial.specs.Quotient.{Places, begun, subtracted, division};

// A quotient in the making: the digits found, what is left of the dividend, and how many digits
// are left to find.
#[derive(Clone, Copy)]
pub struct Division {
    pub quotient: u64,
    pub rest: u64,
    pub left: u32,
}

impl Division {
    // Before the first step.
    pub fn begun(v: u64, most: u32) -> Division
        ensures { result ≡ begun v most }
    {
        Division {
            quotient: 0,
            rest: v,
            left: most,
        }
    }

    // One step: d, at the place of the next digit, is taken away where it goes, and then that digit is 1.
    pub fn subtracted(self, d: u64) -> Division
        requires { Places d self }
        ensures { result ≡ subtracted d self }
    {
        let place = self.left - 1;
        let shifted = d << place;
        if shifted <= self.rest {
            return Division {
                quotient: self.quotient + (1u64 << place),
                rest: self.rest - shifted,
                left: place,
            };
        }
        Division {
            left: place,
            ..self
        }
    }
}

// The steps of v over d, at most so many, fewer where no bits remain.
pub fn divided(v: u64, d: u64, most: u32) -> Division
    requires { (d < 2 ^ 32) × (most ≤ 32) }
    ensures division { result ≡ division most v d }
    ensures digits { (result.left ≤ most) × (result.quotient ≤ 2 ^ most) }
{
    let mut s = Division::begun(v, most);
    'bits: for _ in 0..most {
        if s.rest == 0 {
            break 'bits;
        }
        s = s.subtracted(d);
    }
    s
}
