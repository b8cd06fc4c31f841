// What a record of kind 256, 257 or 258 does to the sheets. Each answers the refusal of its reply; a refusal changes
// nothing.
ghost use Rattle.std.specs.Prelude.{◌≡◌, ◌≤◌, length};
ghost use Rattle.sheet_bytes.specs.Ledger.{sheets_bytes};
ghost use Rattle.sheet_bytes.specs.Entering.{payload_for, open_of, keep_of, close_of, entered_of};

use crate::Refusal;
use crate::bytes::{KEPT_AT, MOST_SHEETS, close, is_open, keep, open};

// The kinds of this ledger's records.
pub const OPEN_KIND: u16 = 256;

pub const KEEP_KIND: u16 = 257;

pub const CLOSE_KIND: u16 = 258;

// Kind 256: the serial is the payload.
fn open_sheet(sheets: &mut [u8], payload: &[u8]) -> Refusal
    requires { (length sheets.old ≡ sheets_bytes) × (length payload.now ≡ 4) }
    ensures { (result ≡ (open_of sheets.old payload.now).refusal)
        × (sheets.new ≡ (open_of sheets.old payload.now).sheets) }
{
    if is_open(sheets) {
        return Refusal::StillOpen;
    }
    open(sheets, payload);
    Refusal::Done
}

// Kind 257: the word on top of the stack into a slot.
fn keep_word(sheets: &mut [u8], slot: u8, pending: bool, top: u32) -> Refusal
    requires { length sheets.old ≡ sheets_bytes }
    ensures { (result ≡ (keep_of sheets.old slot pending top).refusal)
        × (sheets.new ≡ (keep_of sheets.old slot pending top).sheets) }
{
    if !is_open(sheets) {
        return Refusal::NoneOpen;
    }
    if 3 < slot {
        return Refusal::NoSuchSlot;
    }
    if pending {
        return Refusal::HalfPending;
    }
    keep(sheets, slot, top);
    Refusal::Done
}

// Kind 258.
fn close_sheet(sheets: &mut [u8]) -> Refusal
    requires { length sheets.old ≡ sheets_bytes }
    ensures { (result ≡ (close_of sheets.old).refusal)
        × (sheets.new ≡ (close_of sheets.old).sheets) }
{
    if !is_open(sheets) {
        return Refusal::NoneOpen;
    }
    if sheets[KEPT_AT] < 15 {
        return Refusal::SlotEmpty;
    }
    if MOST_SHEETS <= sheets[0] {
        return Refusal::ListFull;
    }
    close(sheets);
    Refusal::Done
}

// The bytes of a payload.
pub fn payload_for(kind: u16) -> usize
    ensures { (result ≡ payload_for kind) × (result ≤ 4) }
{
    match kind {
        256 => 4,
        257 => 1,
        _ => 0,
    }
}

// A record of this library done, with the half word pending or not and the word on top of the stack as they stand.
pub fn enter(sheets: &mut [u8], kind: u16, payload: &[u8], pending: bool, top: u32) -> Refusal
    requires { (length sheets.old ≡ sheets_bytes) × (length payload.now ≡ payload_for kind) }
    ensures { (result ≡ (entered_of sheets.old kind payload.now pending top).refusal)
        × (sheets.new ≡ (entered_of sheets.old kind payload.now pending top).sheets) }
{
    match kind {
        256 => open_sheet(sheets, payload),
        257 => keep_word(sheets, payload[0], pending, top),
        _ => close_sheet(sheets),
    }
}
