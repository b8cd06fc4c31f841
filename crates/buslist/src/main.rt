// The listing program: reads record bytes from standard input, up to one more than a run takes,
// and writes the listing of their run from reset to standard output. `--am9511` and `--nearest`, in
// this order, choose the older part's reset and the rule that rounds.
#![tactic(auto)]

use console::{argument, argument_count, read_full};
use std::io;

fn main(rt: HostRuntime) -> io::Result<()> {
    let mut first = [0u8; 16];
    let a = argument(&rt, 1, &mut first);
    let mut second = [0u8; 16];
    let b = argument(&rt, 2, &mut second);
    let mut input = [0u8; 12289];
    let n = read_full(&mut rt.stdin(), &mut input)?;
    let mut text = [0u8; list_text::TEXT_ROOM];
    let m = list_text::told(
        argument_count(&rt),
        &first[..a],
        &second[..b],
        &input[..n],
        &mut text,
    );
    rt.write_all(&text[..m])
}
