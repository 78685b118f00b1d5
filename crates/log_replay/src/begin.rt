// What the reading of a log begins with: the state that version 0 gives by its own rules, and what a checkpoint's lines are applied to.
ghost use Rattle.std.specs.Prelude.{◌≤◌, ◌<◌, length};
ghost use Rattle.rules.specs.History.{read_zero};
ghost use Rattle.file_bundle.specs.Files.{files_in, file_in};
ghost use Rattle.log_replay.specs.Views.{Lies, said_of, Stated};
ghost use Rattle.log_replay.specs.Answers.{body_as, says, SayingIs, ZeroIs, Renewed};

use crate::{Span, State};
use line_actions::Action;
use refusals::Refusal;

// Rows are put in behind so many free ones at first, so that there is room on both sides.
const MIDDLE: usize = 512;

// The lines of version 0 that say its metaData and its protocol, and where the strings of the partition columns begin in the first.
#[derive(Clone, Copy)]
struct Said {
    table: Span,
    columns: usize,
    protocol: Span,
}

// Adds line number `number` of entry number `entry`, which is not empty and stands in the bundle at `from`, to what version 0 said. The
// bundle itself is only spoken of.
fn say(
    src: &[u8],
    line: &[u8],
    from: usize,
    entry: usize,
    number: usize,
    said: Said,
) -> Result<Said, Refusal>
    requires { Stated src.now said × Lies src.now from line.now × (0 < length line.now) }
    ensures { SayingIs src.now (says entry number line.now (said_of src.now said)) result }
{
    let this = Span {
        at: from,
        size: line.len(),
    };
    match line_actions::classify(line) {
        Some(Action::Protocol(_)) if said.protocol.size == 0 => Ok(Said {
            protocol: this,
            ..said
        }),
        Some(Action::MetaData(m)) if said.table.size == 0 => Ok(Said {
            table: this,
            columns: m.columns,
            ..said
        }),
        Some(Action::Other) => Ok(said),
        _ => Err(Refusal::Malformed(entry, number)),
    }
}

// Reads the lines of the body of version 0, entry number `entry`, which stands in the bundle at `from`.
fn zero_lines(src: &[u8], body: &[u8], from: usize, entry: usize) -> Result<State, Refusal>
    requires { Lies src.now from body.now }
    ensures { ZeroIs src.now (read_zero (body_as entry from body.now)) result }
{
    let mut at = 0;
    let mut said = Said {
        table: Span { at: 0, size: 0 },
        columns: 0,
        protocol: Span { at: 0, size: 0 },
    };
    let mut line = 1;
    while at < body.len() {
        let end = file_lines::line_end(body, at, body.len());
        let next = end + 1;
        if at < end {
            said = say(src, &body[at..end], from + at, entry, line, said)?;
        }
        at = next;
        line += 1;
    }
    if said.table.size == 0 {
        return Err(Refusal::Malformed(entry, 0));
    }
    Ok(State {
        table: said.table,
        columns: said.columns,
        protocol: said.protocol,
        base: MIDDLE,
        live: 0,
    })
}

// Reads file k of the bundle as version 0. It needs no table: nothing is live yet.
pub fn read_zero(src: &[u8], k: usize) -> Result<State, Refusal>
    requires { k < length (files_in src.now) }
    ensures { ZeroIs src.now (read_zero (file_in src.now k)) result }
{
    let e = file_bundle::entry_at(src, k);
    let from = e.start;
    let to = from + e.size;
    zero_lines(src, &src[from..to], from, k)
}

// What a checkpoint's lines are applied to: no metaData, no protocol and nothing live, behind as many free rows as z has.
pub fn nothing_live(z: State) -> State
    ensures { Renewed z result }
{
    let none = Span { at: 0, size: 0 };
    State {
        table: none,
        columns: 0,
        protocol: none,
        base: z.base,
        live: 0,
    }
}
