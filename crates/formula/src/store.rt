// Records stored in what is lent for a file; what falls past its end is left out.
ghost use Rattle.std.specs.Prelude.{◌≡◌, ◌+◌, ◌≤◌, length, set};
ghost use Rattle.std.proofs.lemmas.List.Edits.{sets};
ghost use Rattle.formula.specs.File.{push_record, command_record};

// A byte to a place, where there is such a place.
fn put(out: &mut [u8], i: usize, b: u8)
    ensures { out.new ≡ set out.old i b }
{
    if i < out.len() {
        out[i] = b;
    }
}

// Bytes from a place on.
fn store(out: &mut [u8], at: usize, bytes: &[u8])
    requires { (at ≤ 4096) × (length bytes.now ≤ 8) }
    ensures { out.new ≡ sets out.old at bytes.now }
{
    let mut i = 0;
    while i < bytes.len() {
        put(out, at + i, bytes[i]);
        i += 1;
    }
}

// A push record of a word.
pub fn push_record(out: &mut [u8], at: usize, word: u32)
    requires { at ≤ 4096 }
    ensures { out.new ≡ sets out.old at (push_record word) }
{
    let r = [
        6,
        0,
        1,
        0,
        (word % 256) as u8,
        (word / 256 % 256) as u8,
        (word / 65536 % 256) as u8,
        (word / 16777216 % 256) as u8,
    ];
    store(out, at, &r);
}

// A command record.
pub fn command_record(out: &mut [u8], at: usize, code: u8)
    requires { at ≤ 4096 }
    ensures { out.new ≡ sets out.old at (command_record code) }
{
    let r = [3, 0, 3, 0, code];
    store(out, at, &r);
}
