// The program behind ./formula: reads 32 bytes, the words of a to h, and behind them the text of a formula, up to one
// byte
// more than a formula has, from standard input; writes the record file, or `refused` and the number, to standard
// output,
// and `end` behind either.
#![tactic(auto)]

use console::read_full;

// What stands where no file was written.
fn tell(out: &impl Print, refusal: u32) -> std::io::Result<()> {
    match refusal {
        30 => out.write_all(b"refused 30\nend\n"),
        31 => out.write_all(b"refused 31\nend\n"),
        32 => out.write_all(b"refused 32\nend\n"),
        _ => out.write_all(b"refused 33\nend\n"),
    }
}

fn main(rt: HostRuntime) -> std::io::Result<()> {
    let mut letters = [0u8; 32];
    read_full(&mut rt.stdin(), &mut letters)?;
    let mut text = [0u8; 257];
    let n = read_full(&mut rt.stdin(), &mut text)?;
    let mut file = [0u8; 1664];
    let r = pundaliket::pundaliket_formula(&text[..n], &letters, &mut file);
    if r < 65536 {
        let n = io::count(r as isize, &file);
        rt.write_all(&file[..n])?;
        rt.write_all(b"end\n")
    } else {
        tell(&rt, r / 65536)
    }
}
