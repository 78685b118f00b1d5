// The entries over a state manifest.
ghost use Rattle.std.specs.Prelude.{◌≡◌, length};
ghost use Rattle.rules.specs.Keeping.{keeping, room_after_keeping};
ghost use Rattle.rules.specs.Rooms.{counted};
ghost use Rattle.entries_c.specs.Codes.{counted_by};
ghost use Rattle.entries_c.specs.States.{DirectoryIs};

use crate::codes::{Counted, accepted, refused_as};

// The numbers of the manifests of a state manifest that a query keeps, as `manifests::keep`.
#[unsafe(no_mangle)]
pub extern "C" fn kerumpase_keep(state: &[u8], q: &[u8], kept: &mut [u32]) -> Counted
    ensures value { result ≡ counted_by (counted (keeping (length kept.old) state.now q.now)) }
    ensures kept_after { kept.new ≡ room_after_keeping (keeping (length kept.old) state.now q.now) kept.old }
{
    match manifests::keep(state, q, kept) {
        Ok(n) => Counted {
            refused: accepted(),
            count: n,
        },
        Err(x) => Counted {
            refused: refused_as(x),
            count: 0,
        },
    }
}

// The first `length` bytes of the path, or of the state's directory.
#[repr(C)]
#[derive(Clone, Copy)]
pub struct DirectoryShown {
    pub of_path: bool,
    pub length: usize,
}

// The directory in which a manifest lies, as `manifests::directory`. What a path shows of itself is never empty: it begins with a letter.
#[unsafe(no_mangle)]
pub extern "C" fn kerumpase_directory(path: &[u8], state_directory: &[u8]) -> DirectoryShown
    ensures { DirectoryIs path.now state_directory.now result }
{
    let own = manifests::directory(path, b"");
    let n = own.len();
    if 0 < n {
        return DirectoryShown {
            of_path: true,
            length: n,
        };
    }
    DirectoryShown {
        of_path: false,
        length: state_directory.len(),
    }
}
