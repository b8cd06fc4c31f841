// The program behind ./steps: its arguments are CODE B A and an option, and it writes what
// `step_text` tells for them to standard output, `usage` where they ask for nothing that it does.
#![tactic(auto)]

use console::{argument, argument_count};
use std::io;

fn main(rt: HostRuntime) -> io::Result<()> {
    let mut code = [0u8; 16];
    let n = argument(&rt, 1, &mut code);
    let mut b = [0u8; 16];
    let m = argument(&rt, 2, &mut b);
    let mut a = [0u8; 16];
    let k = argument(&rt, 3, &mut a);
    let mut option = [0u8; 16];
    let j = argument(&rt, 4, &mut option);
    let mut text = [0u8; step_text::TEXT_ROOM];
    let t = step_text::told(
        argument_count(&rt),
        &code[..n],
        &b[..m],
        &a[..k],
        &option[..j],
        &mut text,
    );
    rt.write_all(&text[..t])
}
