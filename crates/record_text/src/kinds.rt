// The kinds of records: their numbers, their names, and the form of what stands behind a name. A kind is known by the
// place of its name: the names of the codes stand at 0 to 127, those of the kinds 1 to 8 and 256 to 258 at 128 to 138.
ghost use Rattle.std.specs.Prelude.{◌≡◌, ◌+◌, ◌≤◌, length};
ghost use Rattle.listing.specs.Text.{Adds};
ghost use Rattle.record_text.specs.Letters.{same};
ghost use Rattle.record_text.specs.Kinds.{number_at, kind_at, no_place, form_of, kind_name};
ghost use Rattle.record_text.specs.Held.{NamePlace, PlaceOf};

use listing::text::add;
use numbers::four_at;

// The place of the command's name, the first of module sheets, and the one where no name stands.
pub const COMMAND: u8 = 130;

const SHEETS: u8 = 136;

pub const NO_PLACE: u8 = 139;

// What stands behind a name: bytes and words, a number, a code, nothing. What is unknown has no name.
#[derive(Clone, Copy)]
pub enum Form {
    Bytes,
    Number,
    Code,
    Alone,
    Unknown,
}

// Where a part of a text begins and ends.
#[derive(Clone, Copy)]
pub struct Span {
    pub from: usize,
    pub to: usize,
}

// The kind of a number.
pub fn kind_of(number: u16) -> u8
    ensures { PlaceOf number result }
{
    if number < 9 {
        return number as u8 + 127;
    }
    if number < 256 {
        return NO_PLACE;
    }
    if number < 259 {
        return (number - 120) as u8;
    }
    NO_PLACE
}

// The number of a kind.
pub fn number_of(kind: u8) -> u16
    requires { 127 ≤ kind }
    ensures { result ≡ number_at kind }
{
    if kind < SHEETS {
        return kind as u16 - 127;
    }
    kind as u16 + 120
}

// The form of what stands behind the name of a kind.
pub fn form_of(kind: u8) -> Form
    requires { (127 ≤ kind) × (kind ≤ no_place) }
    ensures { result ≡ form_of (kind_at kind) }
{
    match kind {
        127 => Form::Unknown,
        128 => Form::Bytes,
        129 => Form::Number,
        130 => Form::Code,
        136 => Form::Number,
        137 => Form::Number,
        139 => Form::Unknown,
        _ => Form::Alone,
    }
}

// The names of the kinds in turn, and where each of them ends.
const NAMES: [u8; 61] = *b"pushpopcommandstatusresetacknowledgerecallforgetopenkeepclose";

const ENDS: [u8; 16] = [0, 0, 4, 7, 14, 20, 25, 36, 42, 48, 52, 56, 61, 61, 61, 61];

// Where the name of a kind stands among them.
fn name_place(kind: u8) -> Span
    requires { (127 ≤ kind) × (kind ≤ no_place) }
    ensures { NamePlace (kind_at kind) result }
{
    let ends = four_at(&ENDS, (kind - 127) as usize);
    Span {
        from: (ends % 256) as usize,
        to: (ends / 256 % 256) as usize,
    }
}

// The name of a kind.
pub fn add_kind(out: &mut [u8], place: usize, kind: u8) -> usize
    requires { (127 ≤ kind) × (kind ≤ no_place) × (place + 11 ≤ length out.old) }
    ensures { Adds (kind_name (kind_at kind)) out.old out.new place result × (result ≤ place + 11) }
{
    let s = name_place(kind);
    let from = s.from;
    let to = s.to;
    add(out, place, &NAMES[from..to])
}

// Whether a text is the name of a kind.
pub fn is_kind(kind: u8, text: &[u8]) -> bool
    requires { (127 ≤ kind) × (kind ≤ no_place) }
    ensures { result ≡ same (kind_name (kind_at kind)) text.now }
{
    let s = name_place(kind);
    let from = s.from;
    let to = s.to;
    check::same(text, &NAMES[from..to])
}
