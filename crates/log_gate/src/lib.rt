// The gate: whether the protocol in force is readable, and whether it is writable.
#![tactic(auto)]

ghost use Rattle.std.specs.Prelude.{◌≡◌, ◌&&◌, leb};
ghost use Rattle.rules.specs.Actions.{Protocol as RuleProtocol, unstated as rule_unstated};
ghost use Rattle.rules.specs.Gate.{known_writer};
ghost use Rattle.rules.specs.History.{or_unstated};
ghost use Rattle.rules.specs.Json.Text.{Text};
ghost use Rattle.line_actions.specs.Line.{ProtocolIs};
ghost use Rattle.log_replay.specs.Views.{protocol_at, Inside};
ghost use Rattle.log_gate.specs.Judged.{VerdictIs};

use line_actions::Stated;
use log_replay::Span;
use refusals::Refusal;

// The highest number of a protocol that readers know.
const KNOWN_READER: u64 = 3;

// The highest number of a protocol that writers know.
const KNOWN_WRITER: u64 = 3;

// The number of a protocol that is not stated, for readers and for writers.
const UNSTATED: u64 = 1;

// A readable protocol: its numbers, and whether it is writable.
#[derive(Clone, Copy)]
pub struct Numbers {
    pub reader: u64,
    pub writer: u64,
    pub writable: bool,
}

// Whether the protocol p is writable.
fn can_write(p: Stated) -> bool
    ensures { result ≡ (leb p.writer known_writer && p.writer_known) }
{
    p.writer <= KNOWN_WRITER && p.writer_known
}

// What the gate says of the protocol p. Its number is judged before its features.
fn judge_stated(p: Stated) -> Result<Numbers, Refusal>
    ensures { (s : Text) (q : RuleProtocol) → ProtocolIs s q p → VerdictIs q result }
{
    let reader = p.reader;
    let writer = p.writer;
    if KNOWN_READER < reader {
        return Err(Refusal::ReaderTooHigh);
    }
    if p.reader_known {
        let writable = can_write(p);
        return Ok(Numbers {
            reader,
            writer,
            writable,
        });
    }
    Err(Refusal::UnknownFeature)
}

// What the gate says where no protocol is stated.
fn judge_unstated() -> Result<Numbers, Refusal>
    ensures { VerdictIs rule_unstated result }
{
    Ok(Numbers {
        reader: UNSTATED,
        writer: UNSTATED,
        writable: true,
    })
}

// What the gate says of the protocol whose line stands at `at`; of the unstated one, where that line states none.
pub fn judge(src: &[u8], at: Span) -> Result<Numbers, Refusal>
    requires { Inside src.now at }
    ensures { VerdictIs (or_unstated (protocol_at src.now at)) result }
{
    let from = at.at;
    let to = from + at.size;
    match line_actions::protocol_of(&src[from..to]) {
        Some(p) => judge_stated(p),
        None => judge_unstated(),
    }
}
