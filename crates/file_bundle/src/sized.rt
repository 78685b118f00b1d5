// Bytes before a zero, passed eight at a time.
ghost use Rattle.std.specs.Prelude.{◌≡◌, false, ◌≤◌, ◌+◌, length, drop};
ghost use Rattle.file_bundle.specs.Files.{name_size, Filled};

// Whether one of the four bytes from i on is zero.
fn zero_in_four(p: &[u8], i: usize) -> bool
    requires { i + 4 ≤ length p.now }
    ensures { result ≡ false → Filled p.now i 4 }
{
    (p[i] == 0) | (p[i + 1] == 0) | (p[i + 2] == 0) | (p[i + 3] == 0)
}

// Whether one of the eight bytes from i on is zero: all of them looked at with no branch, so that the machine does it at once.
fn zero_in_eight(p: &[u8], i: usize) -> bool
    requires { i + 8 ≤ length p.now }
    ensures { result ≡ false → Filled p.now i 8 }
{
    zero_in_four(p, i) | zero_in_four(p, i + 4)
}

// A place up to which p has no zero; there may be more such bytes.
pub fn skip_filled(p: &[u8]) -> usize
    ensures { (result ≤ length p.now) × (name_size p.now ≡ result + name_size (drop result p.now)) }
{
    let mut i = 0;
    while 8 <= p.len() - i {
        if zero_in_eight(p, i) {
            return i;
        }
        i += 8;
    }
    i
}
