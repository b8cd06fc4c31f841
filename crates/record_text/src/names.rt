// The names of commands: those of Figure 8 of document 001, one table by code.
ghost use Rattle.std.specs.Prelude.{◌≡◌, ◌%◌, ◌≤◌};
ghost use Rattle.record_text.specs.Letters.{same};
ghost use Rattle.record_text.specs.Names.{name_of};
ghost use Rattle.record_text.specs.Held.{letters_in, HeldName};

use numbers::{four_at, put_word};

// The names of the codes 0 to 127 in turn, four letters each; dots fill them up.
const NAMES: [u8; 512] = *b"NOP.SQRTSIN.COS.TAN.ASINACOSATANLOG.LN..EXP.PWR.................\
    FADDFSUBFMULFDIV....CHSF....PTOFPOPFXCHFPUPI....FLTDFLTSFIXDFIXS\
    ................................................DADDDSUBDMULDDIV\
    ................CHSD....DMUUPTODPOPDXCHD........................\
    ................................................................\
    ................................................................\
    ................................................SADDSSUBSMULSDIV\
    ................CHSS....SMUUPTOSPOPSXCHS........................";

// A name of up to four letters, dots behind it, and how many they are; 0 where a code has no name.
#[derive(Clone, Copy)]
pub struct Name {
    pub text: [u8; 4],
    pub size: usize,
}

// How many letters a name has, of which the four letters are given as a number, the first one lowest.
fn letters(key: u32) -> usize
    ensures { (result ≡ letters_in key) × (result ≤ 4) }
{
    if key / 0x100_0000 != 46 {
        return 4;
    }
    if key / 0x1_0000 % 0x100 != 46 {
        return 3;
    }
    if key % 0x100 != 46 {
        return 2;
    }
    0
}

// The name of a code, sr not counted.
pub fn name_of(code: u8) -> Name
    ensures { HeldName (code % 128) result }
{
    let key = four_at(&NAMES, (code % 128) as usize * 4);
    let mut text = [0u8; 4];
    put_word(&mut text, key as usize);
    Name {
        text,
        size: letters(key),
    }
}

// Whether a text is the name of a code, sr not counted.
pub fn is_name(code: u8, text: &[u8]) -> bool
    ensures { result ≡ same (name_of (code % 128)) text.now }
{
    let name = name_of(code);
    let letters = name.text;
    let size = name.size;
    check::same(text, &letters[..size])
}
