// The ends of lines in a text.
ghost use Rattle.std.specs.Prelude.{◌≤◌, length};

// Where the line ends that begins at a place.
pub fn line_end(text: &[u8], at: usize) -> usize
    requires { at ≤ length text.now }
    ensures { (at ≤ result) × (result ≤ length text.now) }
{
    let mut end = at;
    while end < text.len() {
        if text[end] == b'\n' {
            return end;
        }
        end += 1;
    }
    end
}

// The end of a line without a carriage return.
pub fn trimmed(text: &[u8], at: usize, end: usize) -> usize
    requires { (at ≤ end) × (end ≤ length text.now) }
    ensures { (at ≤ result) × (result ≤ length text.now) }
{
    if end <= at {
        return end;
    }
    if text[end - 1] == b'\r' {
        return end - 1;
    }
    end
}
