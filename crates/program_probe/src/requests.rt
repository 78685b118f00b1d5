// The parts of a request, as standard input gives them: None where the request is cut short or asks for more than the room has.
ghost use Rattle.std.specs.Prelude.{◌≤◌, length, IfSome};

pub fn next_number() -> Option<u64> {
    let mut b = [0; 8];
    if io::read_full(program_printing::STANDARD_INPUT, &mut b) < b.len() {
        return None;
    }
    Some(u64::from_le_bytes(b))
}

// The start of the room, as long as the next number says.
pub fn next_of<T>(room: &mut [T]) -> Option<&mut [T]>
    ensures { IfSome result (λ part. length part.now ≤ length room.old) }
{
    let size = next_number()? as usize;
    room.get_mut(..size)
}

// The next byte string, at the start of the room. The room's length is its limit.
pub fn next_text(room: &mut [u8]) -> Option<&[u8]>
    ensures { IfSome result (λ text. length text.now ≤ length room.old) }
{
    let text = next_of(room)?;
    if io::read_full(program_printing::STANDARD_INPUT, text) < text.len() {
        return None;
    }
    Some(text)
}
