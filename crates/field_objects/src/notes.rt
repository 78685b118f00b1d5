// Slots: how often each field of an object was seen, and where its value stands.
ghost use Rattle.std.specs.Prelude.{◌≡◌};
ghost use Rattle.field_objects.specs.Slots.{one_more, slot_by};

// How often a field stands in an object (2 for more), and where its value is if once.
#[derive(Clone, Copy)]
pub struct Slot {
    pub seen: usize,
    pub start: usize,
    pub end: usize,
}

// What an object holds: the position behind it, and a slot for each name of its kind, at most eight.
#[derive(Clone, Copy)]
pub struct Fields {
    pub end: usize,
    pub slots: [Slot; 8],
}

// The slot of a field that was seen so often, with one value more.
fn one_more(seen: usize, start: usize, end: usize) -> Slot
    ensures { result ≡ one_more seen start end }
{
    if seen == 0 {
        Slot {
            seen: 1,
            start,
            end,
        }
    } else {
        Slot {
            seen: 2,
            start: 0,
            end: 0,
        }
    }
}

// The slot with one value more, if it is a name's; else as it was.
pub fn noted(old: Slot, named: bool, start: usize, end: usize) -> Slot
    ensures { result ≡ slot_by named (one_more old.seen start end) old }
{
    if named {
        one_more(old.seen, start, end)
    } else {
        old
    }
}
