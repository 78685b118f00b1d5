// The rooms that are lent: bytes of a request, and numbers as they are before each call. The length of a room is the limit of what it is lent for.

pub fn query() -> [u8; 5000] {
    [0; 5000]
}

// A line, a path or a directory.
pub fn short() -> [u8; 70000] {
    [0; 70000]
}

// A bundle or a state manifest.
pub fn long() -> [u8; 1100000] {
    [0; 1100000]
}

// The rows of a reading.
pub fn table() -> [u64; 6300] {
    [0xA5A5A5A5A5A5A5A5; 6300]
}

// Numbers of entries, or of manifests kept.
pub fn names() -> [u32; 1100] {
    [0xA5A5A5A5; 1100]
}
