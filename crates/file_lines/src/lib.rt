// The lines of a body, as parts of the bundle that it lies in.
#![tactic(auto)]

ghost use Rattle.std.specs.Prelude.{◌≡◌, false, ◌≤◌, ◌+◌, length};
ghost use Rattle.rules.specs.Actions.{is_line};
ghost use Rattle.file_lines.specs.Ends.{EndsLine, Free};

const LINE_FEED: u8 = 0x0A;

// Whether one of the four bytes from i on is a line feed.
fn feed_in_four(s: &[u8], i: usize) -> bool
    requires { i + 4 ≤ length s.now }
    ensures { result ≡ false → Free s.now i (i + 4) }
{
    (s[i] == LINE_FEED)
        | (s[i + 1] == LINE_FEED)
        | (s[i + 2] == LINE_FEED)
        | (s[i + 3] == LINE_FEED)
}

// Whether one of the sixteen bytes from i on is a line feed: all of them looked at with no branch, so that the machine does it at once.
fn feed_in_sixteen(s: &[u8], i: usize) -> bool
    requires { i + 16 ≤ length s.now }
    ensures { result ≡ false → Free s.now i (i + 16) }
{
    feed_in_four(s, i) | feed_in_four(s, i + 4) | feed_in_four(s, i + 8) | feed_in_four(s, i + 12)
}

// A place from `from` on, before `to`, up to which there is no line feed: sixteen bytes at a time are passed.
fn skip_sixteens(s: &[u8], from: usize, to: usize) -> usize
    requires { (from ≤ to) × (to ≤ length s.now) }
    ensures { (from ≤ result) × (result ≤ to) × Free s.now from result }
{
    let mut i = from;
    while 16 <= to - i {
        if feed_in_sixteen(s, i) {
            return i;
        }
        i += 16;
    }
    i
}

// Where the line that begins at `from` ends: at the next line feed before `to`, or at `to`.
pub fn line_end(s: &[u8], from: usize, to: usize) -> usize
    requires { (from ≤ to) × (to ≤ length s.now) }
    ensures { EndsLine s.now from to result }
{
    let start = skip_sixteens(s, from, to);
    for i in start..to {
        if s[i] == LINE_FEED {
            return i;
        }
    }
    to
}

// Whether bytes that were lent as a line are one: they hold no line feed.
pub fn is_line(l: &[u8]) -> bool
    ensures { result ≡ is_line l.now }
{
    line_end(l, 0, l.len()) == l.len()
}
