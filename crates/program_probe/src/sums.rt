// The sum that is printed of bytes and of lent rooms: from 7 on, `h = (h * 257 + b) % 4294967291` for each byte b, numbers as little-endian bytes.
ghost use Rattle.std.specs.Prelude.{◌<◌};

const FIRST: u32 = 7;

const MODULUS: u64 = 4294967291;

fn with_byte(h: u32, b: u8) -> u32
    ensures { result < 4294967291 }
{
    ((u64::from(h) * 257 + u64::from(b)) % MODULUS) as u32
}

// h with these bytes.
fn with_bytes(h: u32, s: &[u8]) -> u32
    ensures { h < 4294967291 → result < 4294967291 }
{
    let mut sum = h;
    for &b in s {
        sum = with_byte(sum, b);
    }
    sum
}

pub fn of_bytes(s: &[u8]) -> u32 {
    with_bytes(FIRST, s)
}

pub fn of_u32(room: &[u32]) -> u32 {
    room.iter()
        .fold(FIRST, |h, n| with_bytes(h, &n.to_le_bytes()))
}

pub fn of_u64(room: &[u64]) -> u32 {
    room.iter()
        .fold(FIRST, |h, n| with_bytes(h, &n.to_le_bytes()))
}
