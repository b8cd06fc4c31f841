// A product a bit at a time: the multiplicand, shifted, is added for each bit of the multiplier
// that is set, the last bit first.
ghost use Rattle.std.specs.Prelude.{◌≡◌, ◌^◌, ◌≤◌, ◌<◌};
ghost use Rattle.std.specs.Float.Ieee.{size};
ghost use Rattle.bit_serial.specs.Product.{AddsUp, begun, added, product};

// A product in the making: what was added up, the bits of the multiplier that are left, and how
// many steps were made.
#[derive(Clone, Copy)]
pub struct Product {
    pub partial: u64,
    pub left: u64,
    pub steps: u32,
}

impl Product {
    // Before the first step.
    pub fn begun(y: u64) -> Product
        ensures { result ≡ begun y }
    {
        Product {
            partial: 0,
            left: y,
            steps: 0,
        }
    }

    // One step: x is added, as many places up as steps were made, where the last bit left is set.
    pub fn added(self, x: u64) -> Product
        requires { AddsUp x self }
        ensures { result ≡ added x self }
    {
        let mut partial = self.partial;
        if self.left % 2 == 1 {
            partial += x << self.steps;
        }
        Product {
            partial,
            left: self.left / 2,
            steps: self.steps + 1,
        }
    }

    // How many bits of the multiplier are left, none above the highest that is set.
    pub fn bits_left(self) -> u32
        ensures { (result ≡ size self.left) × (result ≤ 64) }
    {
        64 - self.left.leading_zeros()
    }
}

// The steps of x times y, at most so many, fewer where no bits remain.
pub fn multiplied(x: u64, y: u64, most: u32) -> Product
    requires { (x < 2 ^ 32) × (most ≤ 32) }
    ensures { result ≡ product most x y }
{
    let mut p = Product::begun(y);
    'bits: for _ in 0..most {
        if p.left == 0 {
            break 'bits;
        }
        p = p.added(x);
    }
    p
}
