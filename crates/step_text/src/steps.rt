// The lines of all steps of a product or a quotient: the engine's own steps, one line after each.
ghost use Rattle.std.specs.Prelude.{◌*◌, ◌^◌, ◌≤◌, ◌<◌, length};
ghost use Rattle.bit_serial.specs.Product.{begun as begunProduct};
ghost use Rattle.bit_serial.specs.Quotient.{begun as begunQuotient};
ghost use Rattle.bit_serial.specs.Work.{Narrow};
ghost use Rattle.listing.specs.Text.{Adds};
ghost use Rattle.step_text.specs.Lines.{line_room};
ghost use Rattle.step_text.specs.Steps.{product_lines, quotient_lines, step_lines};

use super::lines::add_step;
use bit_serial::divide::Division;
use bit_serial::multiply::Product;
use bit_serial::tasks::Task;

// The steps of x times y, at most so many.
fn add_product(out: &mut [u8], x: u64, y: u64, most: u32) -> usize
    requires { (x < 2 ^ 32) × (most ≤ 32) × (line_room * 32 ≤ length out.old) }
    ensures { Adds (product_lines most x (begunProduct y)) out.old out.new 0 result
        × (result ≤ line_room * 32) }
{
    let mut place = 0;
    let mut p = Product::begun(y);
    'bits: for _ in 0..most {
        if p.left == 0 {
            break 'bits;
        }
        p = p.added(x);
        place = add_step(out, place, p.steps as u64, p.bits_left() as u64, p.partial);
    }
    place
}

// The steps of v over d, at most so many.
fn add_quotient(out: &mut [u8], v: u64, d: u64, most: u32) -> usize
    requires { (d < 2 ^ 32) × (most ≤ 32) × (line_room * 32 ≤ length out.old) }
    ensures { Adds (quotient_lines most most d (begunQuotient v most)) out.old out.new 0 result
        × (result ≤ line_room * 32) }
{
    let mut place = 0;
    let mut s = Division::begun(v, most);
    'bits: for _ in 0..most {
        if s.rest == 0 {
            break 'bits;
        }
        s = s.subtracted(d);
        place = add_step(out, place, (most - s.left) as u64, s.left as u64, s.rest);
    }
    place
}

// The steps of a task.
pub fn add_steps(out: &mut [u8], task: Option<Task>) -> usize
    requires { Narrow task × (line_room * 32 ≤ length out.old) }
    ensures { Adds (step_lines task) out.old out.new 0 result × (result ≤ line_room * 32) }
{
    match task {
        None => 0,
        Some(Task::Multiply { x, y, most }) => add_product(out, x, y, most),
        Some(Task::Divide { v, d, most }) => add_quotient(out, v, d, most),
    }
}
