// The program behind ./word: its arguments are a rule, a form and texts, and it writes the line that `decimals` tells
// for each of them; without a text it reads texts from standard input, one to a line. `end` is the last line.
// The form is `short` or `exact` for decimals and words, `sum` for sums as the figures of sheets give them.
#![tactic(auto)]

ghost use Rattle.io.specs.Counts.{IsPrefixLen};

use console::{argument, argument_count, read_full};
use decimals::ends::line_end;
use decimals::line::{LINE_ROOM, tell};
use decimals::read::rule_named;
use decimals::sum::tell_sum;
use std::io;
use std::rt::Env;
use terms::Rule;

// What is told of a text: a decimal or a word, in its short or its exact form, or a sum.
#[derive(Clone, Copy)]
enum Form {
    Short,
    Exact,
    Sum,
}

// The form that the second argument names: the short one, `exact` or `sum`.
fn form_named(name: &[u8]) -> Form {
    if check::same(name, b"exact") {
        return Form::Exact;
    }
    if check::same(name, b"sum") {
        return Form::Sum;
    }
    Form::Short
}

// The line of one text, and how many bytes it has.
fn tell_as(rule: Rule, form: Form, text: &[u8], out: &mut [u8; LINE_ROOM]) -> usize
    ensures { IsPrefixLen result out.new }
{
    match form {
        Form::Short => tell(rule, false, text, out),
        Form::Exact => tell(rule, true, text, out),
        Form::Sum => tell_sum(text, out),
    }
}

// Writes the line of one text.
fn write_line(out: &impl Print, rule: Rule, form: Form, text: &[u8]) -> io::Result<()> {
    let mut line = [0u8; LINE_ROOM];
    let n = tell_as(rule, form, text, &mut line);
    out.write_all(&line[..n])
}

// Writes the line of one argument.
fn write_argument(rt: &(impl Env + Print), rule: Rule, form: Form, i: usize) -> io::Result<()> {
    let mut text = [0u8; 128];
    let n = argument(rt, i, &mut text);
    write_line(rt, rule, form, &text[..n])
}

// Writes the line of each line of a text.
fn write_lines(out: &impl Print, rule: Rule, form: Form, text: &[u8]) -> io::Result<()> {
    let mut at = 0;
    while at < text.len() {
        let end = line_end(text, at);
        write_line(out, rule, form, &text[at..end])?;
        at = end + 1;
    }
    Ok(())
}

// Writes the lines of an input, of which 65,536 bytes are read.
fn write_input<R: io::Read>(
    input: &mut R,
    out: &impl Print,
    rule: Rule,
    form: Form,
) -> io::Result<()> {
    let mut text = [0u8; 65536];
    let n = read_full(input, &mut text)?;
    write_lines(out, rule, form, &text[..n])
}

// Writes the lines of the arguments from the third on.
fn write_arguments(rt: &(impl Env + Print), rule: Rule, form: Form) -> io::Result<()> {
    let count = argument_count(rt);
    let mut i = 3;
    while i < count {
        write_argument(rt, rule, form, i)?;
        i += 1;
    }
    Ok(())
}

fn main(rt: HostRuntime) -> io::Result<()> {
    let mut name = [0u8; 16];
    let n = argument(&rt, 1, &mut name);
    let rule = rule_named(&name[..n]);
    let mut way = [0u8; 16];
    let m = argument(&rt, 2, &mut way);
    let form = form_named(&way[..m]);
    if argument_count(&rt) <= 3 {
        write_input(&mut rt.stdin(), &rt, rule, form)?;
    } else {
        write_arguments(&rt, rule, form)?;
    }
    rt.write_all(b"end\n")
}
