// The head of the record at the front of a file: its frame and its kind. Nothing is done here.
ghost use Rattle.std.specs.Prelude.{◌≡◌, ◌+◌, ◌≤◌, length};
ghost use Rattle.terms.specs.Limits.{most_payload, most_input};
ghost use Rattle.record_runs.specs.Record.{frame_under};

use terms::Refusal;

// The frame of the record at the front of `rest`, which is what is left of a file of this size from a place on: the bytes
// of its payload, or a refusal.
pub fn read_frame(rest: &[u8], at: u32, size: u32) -> Result<u32, Refusal>
    requires { (at + length rest.now ≡ size) × (size ≤ most_input) }
    ensures { result ≡ frame_under most_payload rest.now }
{
    if size < at + 2 {
        return Err(Refusal::CutShort);
    }
    let n = numbers::two(rest[0], rest[1]) as usize;
    if (n < terms::LEAST_LENGTH) | (terms::MOST_LENGTH < n) {
        return Err(Refusal::BadLength);
    }
    if size < at + 2 + n as u32 {
        return Err(Refusal::CutShort);
    }
    Ok(n as u32 - 2)
}
