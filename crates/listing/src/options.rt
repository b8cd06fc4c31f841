// What the words behind the name of a listing program ask for: `--am9511` is mode 1 and `--nearest`
// is rule 1; without them both are 0.
ghost use Rattle.std.specs.Prelude.{◌≡◌};
ghost use Rattle.listing.specs.Options.{asked_of};

// The numbers of a mode and a rule, or nothing that the programs do.
#[derive(Clone, Copy)]
pub enum Asked {
    Under { mode: u32, rule: u32 },
    Nothing,
}

// A call of so many words, the program's own name among them, and the first two behind it: one
// option, or both, the mode's first.
pub fn asked_of(words: usize, first: &[u8], second: &[u8]) -> Asked
    ensures { result ≡ asked_of words first.now second.now }
{
    if words == 1 {
        return Asked::Under { mode: 0, rule: 0 };
    }
    let older = check::same(first, b"--am9511");
    let alone = check::same(first, b"--nearest");
    let last = check::same(second, b"--nearest");
    if (words == 2) & (older | alone) {
        return Asked::Under {
            mode: older as u32,
            rule: !older as u32,
        };
    }
    if (words == 3) & older & last {
        return Asked::Under { mode: 1, rule: 1 };
    }
    Asked::Nothing
}
