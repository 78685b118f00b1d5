// A line asked for one thing alone: its add, its protocol, its metaData, or whether it says anything. What it says else is told apart here,
// once for all callers.
ghost use Rattle.std.specs.Prelude.{◌≡◌};
ghost use Rattle.rules.specs.Actions.{action};
ghost use Rattle.line_actions.specs.Asked.{AddOf, ProtocolOf, TableOf, spoken_is};

use crate::line::{Action, Added, Stated, Tabled, classify};

// The add of the line.
pub fn add_of(line: &[u8]) -> Option<Added>
    ensures { AddOf (action line.now) line.now result }
{
    match classify(line)? {
        Action::Add(a) => Some(a),
        _ => None,
    }
}

// The protocol of the line.
pub fn protocol_of(line: &[u8]) -> Option<Stated>
    ensures { ProtocolOf (action line.now) line.now result }
{
    match classify(line)? {
        Action::Protocol(p) => Some(p),
        _ => None,
    }
}

// The metaData of the line.
pub fn table_of(line: &[u8]) -> Option<Tabled>
    ensures { TableOf (action line.now) line.now result }
{
    match classify(line)? {
        Action::MetaData(m) => Some(m),
        _ => None,
    }
}

// What is said by the line, where no more is asked than whether it is well formed and says the metadata.
pub fn speaks(line: &[u8]) -> Option<bool>
    ensures { result ≡ spoken_is (action line.now) }
{
    match classify(line)? {
        Action::MetaData(_) => Some(true),
        _ => Some(false),
    }
}
