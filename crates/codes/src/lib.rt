// The command codes of the Am9511A, decoded by their bits to a kind: a command that carries its width, in the groups of
// the sheet, a derived function, or an unknown code.
#![tactic(auto)]

ghost use Rattle.std.specs.Prelude.{◌≡◌, ◌+◌, ◌%◌, ◌≤◌, ◌<◌};
ghost use Rattle.codes.specs.Command.{kind_in};
ghost use Rattle.codes.specs.Codes.{sr, decoded};
ghost use Rattle.codes.specs.Format.{width_of, fixed_code};

use terms::Width;

// The fixed-point operations, of 16 bits or of 32: those on B and A, and CHS on A. The first four are in the order of
// their codes, so that no table is needed.
#[derive(Clone, Copy)]
pub enum FixedOp {
    Add,
    Sub,
    Mul,
    Div,
    Muu,
    Chs,
}

// The four float operations on B and A.
#[derive(Clone, Copy)]
pub enum FloatOp {
    Add,
    Sub,
    Mul,
    Div,
}

// The moves of words. Their D and F forms do the same and are one case.
#[derive(Clone, Copy)]
pub enum MoveOp {
    Pto,
    Pop,
    Xch,
}

// What a code stands for, in the sheet's groups: a command that carries its width, a derived function, or nothing.
#[derive(Clone, Copy)]
pub enum Kind {
    Nop,
    Fixed(FixedOp, Width),
    Float(FloatOp),
    Chsf,
    Flt(Width),
    Fix(Width),
    Move(MoveOp, Width),
    Pupi,
    Sqrt,
    Derived,
    Unknown,
}

// The width that one bit of a code selects: 16 where it is 1, else 32.
fn width_of(bit: u8) -> Width
    ensures { result ≡ width_of bit }
{
    if bit == 1 {
        Width::Single
    } else {
        Width::Double
    }
}

// Operations 17 to 19, in every format: PTO, POP, XCH.
#[tactic(auto, using(crate::proofs::Bits::pto_is, crate::proofs::Bits::pop_is, crate::proofs::Bits::xch_is))]
fn moved(operation: u8, width: Width) -> Kind
    requires { (0x17 ≤ operation) × (operation < 0x1a) }
    ensures { kind_in result ≡ decoded (fixed_code width operation) }
{
    match operation {
        0x17 => Kind::Move(MoveOp::Pto, width),
        0x18 => Kind::Move(MoveOp::Pop, width),
        _ => Kind::Move(MoveOp::Xch, width),
    }
}

// Fixed-point operations 0C to 0F by their bits 1 and 0: ADD, SUB, MUL, DIV.
#[tactic(auto, using(crate::proofs::Bits::add_is, crate::proofs::Bits::sub_is, crate::proofs::Bits::mul_is, crate::proofs::Bits::div_is))]
fn arithmetic(low: u8, width: Width) -> Kind
    requires { low < 4 }
    ensures { kind_in result ≡ decoded (fixed_code width (0x0c + low)) }
{
    match low {
        0 => Kind::Fixed(FixedOp::Add, width),
        1 => Kind::Fixed(FixedOp::Sub, width),
        2 => Kind::Fixed(FixedOp::Mul, width),
        _ => Kind::Fixed(FixedOp::Div, width),
    }
}

// The operations of the fixed-point formats, at the width that bit 6 selects.
#[tactic(auto, using(crate::proofs::Bits::fixed_low, crate::proofs::Bits::fixed_high, crate::proofs::Bits::chs_is, crate::proofs::Bits::muu_is))]
fn fixed(operation: u8, width: Width) -> Kind
    requires { operation < 32 }
    ensures { kind_in result ≡ decoded (fixed_code width operation) }
{
    if operation / 4 == 3 {
        return arithmetic(operation % 4, width);
    }
    if 0x1a <= operation {
        return Kind::Unknown;
    }
    if 0x17 <= operation {
        return moved(operation, width);
    }
    match operation {
        0x14 => Kind::Fixed(FixedOp::Chs, width),
        0x16 => Kind::Fixed(FixedOp::Muu, width),
        _ => Kind::Unknown,
    }
}

// Float operations 10 to 13 by their bits 1 and 0: FADD, FSUB, FMUL, FDIV.
#[tactic(auto, unfolding(crate::specs::Codes::decoded))]
fn primary(low: u8) -> Kind
    requires { low < 4 }
    ensures { kind_in result ≡ decoded (0x10 + low) }
{
    match low {
        0 => Kind::Float(FloatOp::Add),
        1 => Kind::Float(FloatOp::Sub),
        2 => Kind::Float(FloatOp::Mul),
        _ => Kind::Float(FloatOp::Div),
    }
}

// Float operations 00 to 0F: NOP, SQRT, and the derived functions 02 to 0B.
#[tactic(auto, using(crate::proofs::Bits::derived_is, crate::proofs::Bits::past_derived), unfolding(crate::specs::Codes::decoded))]
fn derived(operation: u8) -> Kind
    requires { operation < 0x10 }
    ensures { kind_in result ≡ decoded operation }
{
    if 0x0c <= operation {
        return Kind::Unknown;
    }
    match operation {
        0x00 => Kind::Nop,
        0x01 => Kind::Sqrt,
        _ => Kind::Derived,
    }
}

// Float operations 1C to 1F by their bits 1 and 0: FIX or FLT, and its width.
fn conversion(low: u8) -> Kind
    requires { low < 4 }
    ensures { kind_in result ≡ decoded (0x1c + low) }
{
    let width = width_of(low % 2);
    if low / 2 == 1 {
        Kind::Fix(width)
    } else {
        Kind::Flt(width)
    }
}

// The operations of the float format.
#[tactic(auto, using(crate::proofs::Bits::beside_chsf, crate::proofs::Bits::beside_pupi, crate::proofs::Bits::float_moves, crate::proofs::Bits::pupi_is, crate::proofs::Bits::chsf_is))]
fn float(operation: u8) -> Kind
    requires { operation < 32 }
    ensures { kind_in result ≡ decoded operation }
{
    if operation / 4 == 4 {
        return primary(operation % 4);
    }
    if operation < 0x10 {
        return derived(operation);
    }
    if 0x1c <= operation {
        return conversion(operation % 4);
    }
    if operation < 0x17 {
        if operation == 0x15 {
            return Kind::Chsf;
        }
        return Kind::Unknown;
    }
    if operation < 0x1a {
        return moved(operation, Width::Double);
    }
    if operation == 0x1a {
        Kind::Pupi
    } else {
        Kind::Unknown
    }
}

// What a code stands for, whatever its bit 7: bit 5 is 1 for fixed point, bit 6 then selects the width and is 0 for
// floats, bits 4 to 0 are the operation.
#[tactic(auto, using(crate::proofs::Bits::with_bit_5, crate::proofs::Bits::with_bit_6))]
pub fn decode(code: u8) -> Kind
    ensures { kind_in result ≡ decoded (code % 128) }
{
    let operation = code % 32;
    if code / 32 % 2 == 1 {
        return fixed(operation, width_of(code / 64 % 2));
    }
    if code / 64 % 2 == 1 {
        return Kind::Unknown;
    }
    float(operation)
}

// Bit 7 of a code: the service line after an accepted command.
pub fn service(code: u8) -> bool
    ensures { result ≡ sr code }
{
    128 <= code
}
