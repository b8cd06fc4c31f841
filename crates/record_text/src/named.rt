// What a word names: a command of document 001, or a kind of record.
ghost use Rattle.std.specs.Prelude.{◌≡◌, ◌≤◌};
ghost use Rattle.record_text.specs.Letters.{same};
ghost use Rattle.record_text.specs.Kinds.{no_place};
ghost use Rattle.record_text.specs.Named.{name_at, place_named};

use crate::kinds::{NO_PLACE, is_kind};
use crate::names::is_name;

// How many codes there are: behind their names stand those of the kinds.
pub const CODES: u8 = 128;

// Whether a text is the name at a place.
fn is_named(place: u8, text: &[u8]) -> bool
    requires { place ≤ no_place }
    ensures { result ≡ same (name_at place) text.now }
{
    if place < CODES {
        return is_name(place, text);
    }
    is_kind(place, text)
}

// The place of the name that a word is, and the one behind all where it is none.
pub fn named(text: &[u8]) -> u8
    ensures { (result ≡ place_named text.now) × (result ≤ no_place) }
{
    let mut place: u8 = 0;
    while place < NO_PLACE {
        if is_named(place, text) {
            return place;
        }
        place += 1;
    }
    NO_PLACE
}
