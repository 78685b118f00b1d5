// Keeping: the numbers of the manifests that a query keeps, into a lent room, or a refusal.
ghost use Rattle.std.specs.Prelude.{◌≡◌, ◌≤◌, length};
ghost use Rattle.facts.specs.Moves.{zeroed};
ghost use Rattle.manifests.specs.Rooms.{refused_by, KeepIs};

use crate::notes;
use refusals::Refusal;
use rooms::{KEPT_ROOM, MOST_MANIFESTS};

// A refusal that leaves zeros.
fn refuse(kept: &mut [u32], x: Refusal) -> Result<usize, Refusal>
    requires { 256 ≤ length kept.old }
    ensures { (result ≡ refused_by x) × (kept.new ≡ zeroed 0 256 kept.old) }
{
    rooms::zero_u32(kept, 0, KEPT_ROOM);
    Err(x)
}

// The numbers, from 0 and ascending, of the manifests of a state manifest that a query keeps, into a room of at least 256;
// the rest of the 256 are zero, and any beyond stay.
pub fn keep(state: &[u8], q: &[u8], kept: &mut [u32]) -> Result<usize, Refusal>
    ensures { KeepIs state.now q.now kept.old kept.new result }
{
    if kept.len() < KEPT_ROOM {
        return Err(Refusal::RoomTooShort);
    }
    let Some(asked) = query_conditions::read(q) else {
        return refuse(kept, Refusal::QueryMalformed);
    };
    let Some((v, e)) = manifest_state::array_in(state) else {
        return refuse(kept, Refusal::StateMalformed);
    };
    let Some((_, k, n)) = notes::note_array(&state[v..e], q, asked, kept) else {
        return refuse(kept, Refusal::StateMalformed); // goes before 15, however many there are
    };
    if MOST_MANIFESTS < k {
        return refuse(kept, Refusal::TooManyManifests);
    }
    rooms::zero_u32(kept, n, KEPT_ROOM);
    Ok(n)
}
