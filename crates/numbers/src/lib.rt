// Numbers as bytes, the low one first, as records, the report, the calls and buffers have them; and the other way
// round, as the stack has them. The definitions and laws of whole numbers with a sign stand beside them.
#![tactic(auto)]

ghost use Rattle.std.specs.Prelude.{◌≡◌, ◌+◌, ◌*◌, ◌≤◌, length};
ghost use Rattle.std.proofs.Math.Seq.{paste};
ghost use Rattle.numbers.specs.Little.{word_bytes, le4, four_at, eight_at, le8, high2, high4, high8};

// The bytes of a slice that takes a word or an f32.
pub const WORD_BYTES: usize = 4;

// The low 32 bits of a number, in four bytes.
pub fn put_word(out: &mut [u8], n: usize)
    requires { length out.old ≡ word_bytes }
    ensures { out.new ≡ le4 n }
{
    out[0] = (n % 256) as u8;
    out[1] = (n / 256 % 256) as u8;
    out[2] = (n / 65536 % 256) as u8;
    out[3] = (n / 16777216 % 256) as u8;
}

// The number of four bytes.
fn four(a: u8, b: u8, c: u8, d: u8) -> u32
    ensures { result ≡ a + b * 256 + c * 65536 + d * 16777216 }
{
    a as u32 + b as u32 * 0x100 + c as u32 * 0x1_0000 + d as u32 * 0x100_0000
}

// The number of four bytes at a place.
pub fn four_at(bytes: &[u8], at: usize) -> u32
    requires { at + 4 ≤ length bytes.now }
    ensures { result ≡ four_at bytes.now at }
{
    four(bytes[at], bytes[at + 1], bytes[at + 2], bytes[at + 3])
}

// The number of eight bytes at a place.
pub fn eight_at(bytes: &[u8], at: usize) -> u64
    requires { at + 8 ≤ length bytes.now }
    ensures { result ≡ eight_at bytes.now at }
{
    let low = four_at(bytes, at) as u64;
    let high = four_at(bytes, at + 4) as u64;
    low + high * 0x1_0000_0000
}

// A number of 64 bits, in eight bytes.
pub fn put_eight(out: &mut [u8], n: u64)
    requires { length out.old ≡ 8 }
    ensures { out.new ≡ le8 n }
{
    let high = n / 0x1_0000_0000;
    out[0] = (n % 0x100) as u8;
    out[1] = (n / 0x100 % 0x100) as u8;
    out[2] = (n / 0x1_0000 % 0x100) as u8;
    out[3] = (n / 0x100_0000 % 0x100) as u8;
    out[4] = (high % 0x100) as u8;
    out[5] = (high / 0x100 % 0x100) as u8;
    out[6] = (high / 0x1_0000 % 0x100) as u8;
    out[7] = (high / 0x100_0000 % 0x100) as u8;
}

// The number of two bytes.
pub fn two(lo: u8, hi: u8) -> u16
    ensures { result ≡ lo + hi * 256 }
{
    lo as u16 + hi as u16 * 256
}

// Four bytes the other way round.
fn reversed_4(w: u32) -> u32
    ensures { le4 result ≡ high4 w }
{
    w % 0x100 * 0x100_0000
        + w / 0x100 % 0x100 * 0x1_0000
        + w / 0x1_0000 % 0x100 * 0x100
        + w / 0x100_0000
}

// Eight bytes the other way round.
pub fn reversed_8(w: u64) -> u64
    ensures { le8 result ≡ high8 w }
{
    let high = reversed_4((w / 0x1_0000_0000) as u32);
    let low = reversed_4((w % 0x1_0000_0000) as u32);
    high as u64 + low as u64 * 0x1_0000_0000
}

// The bytes of a number from a place on, the high one first: four, and two.
pub fn put_high_4(s: &mut [u8], at: usize, r: u32)
    requires { at + 4 ≤ length s.old }
    ensures { s.new ≡ paste s.old at (high4 r) 4 }
{
    let end = at + 4;
    put_word(&mut s[at..end], reversed_4(r) as usize);
}

pub fn put_high_2(s: &mut [u8], at: usize, r: u32)
    requires { at + 2 ≤ length s.old }
    ensures { s.new ≡ paste s.old at (high2 r) 2 }
{
    s[at] = (r / 256 % 256) as u8;
    s[at + 1] = (r % 256) as u8;
}
