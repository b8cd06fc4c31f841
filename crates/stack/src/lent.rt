// Bytes that a caller lends, and the stack: blocks of bytes pushed and popped.
ghost use Rattle.std.specs.Prelude.{◌≡◌, ◌++◌, ◌≤◌, ◌<◌, length, drop};
ghost use Rattle.stack.specs.Stack.{pushed_all, popped_all, handed_out};
ghost use Rattle.stack.specs.Words.{bytes_in};

use super::Stack;
use terms::Width;

impl Stack {
    // Every byte of p pushed, in order: eight at a time, then four, two and one where so many are left.
    pub fn push_all(self, p: &[u8]) -> Stack
        ensures { bytes_in result ≡ pushed_all (bytes_in self) p.now }
    {
        let mut s = self;
        let mut left = p;
        while 8 <= left.len() {
            let rest = s.top;
            let top = numbers::eight_at(left, 0);
            s = Stack { top, rest };
            left = &left[8..];
        }
        s.push_few(left)
    }

    // Up to seven bytes pushed.
    fn push_few(self, p: &[u8]) -> Stack
        requires { length p.now < 8 }
        ensures { bytes_in result ≡ pushed_all (bytes_in self) p.now }
    {
        let mut s = self;
        let mut left = p;
        if 4 <= left.len() {
            s = s.push(numbers::four_at(left, 0) as u64, 4);
            left = &left[4..];
        }
        if 2 <= left.len() {
            s = s.push(numbers::two(left[0], left[1]) as u64, 2);
            left = &left[2..];
        }
        if 1 <= left.len() {
            s = s.push(left[0] as u64, 1);
        }
        s
    }

    // n bytes popped, to the front of `room`: as many at a time.
    pub fn pop_all(self, n: usize, room: &mut [u8]) -> Stack
        requires { n ≤ length room.old }
        ensures result_value { bytes_in result ≡ popped_all n (bytes_in self) }
        ensures room_after { room.new ≡ handed_out n (bytes_in self) ++ drop n room.old }
    {
        let mut s = self;
        let mut i = 0;
        while 8 <= n - i {
            let end = i + 8;
            numbers::put_eight(&mut room[i..end], numbers::reversed_8(s.top));
            let rest = s.top;
            let top = s.rest;
            s = Stack { top, rest };
            i = end;
        }
        if 4 <= n - i {
            numbers::put_high_4(room, i, s.tos(Width::Double));
            s = s.turn(4);
            i += 4;
        }
        if 2 <= n - i {
            numbers::put_high_2(room, i, s.tos(Width::Single));
            s = s.turn(2);
            i += 2;
        }
        if i < n {
            room[i] = s.top_byte();
            return s.turn(1);
        }
        s
    }
}
