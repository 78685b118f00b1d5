// The entry of the cleaner.
ghost use Rattle.entries_c.specs.Cleans.{NamedIs};

use crate::codes::{Counted, accepted, refused_as};
use file_names::Millis;

// The numbers of the version files that may go, as `cleaning::clean`.
#[unsafe(no_mangle)]
pub extern "C" fn kerumpase_clean(
    bundle: &[u8],
    today: u64,
    retention: u64,
    names: &mut [u32],
    one: &mut [u64],
    two: &mut [u64],
) -> Counted
    ensures { NamedIs
        bundle.now
        today retention
        names.old
        names.new
        one.old
        one.new
        two.old
        two.new
        result }
{
    match cleaning::clean(bundle, Millis(today), Millis(retention), names, one, two) {
        Ok(n) => Counted {
            refused: accepted(),
            count: n,
        },
        Err(x) => Counted {
            refused: refused_as(x),
            count: 0,
        },
    }
}
