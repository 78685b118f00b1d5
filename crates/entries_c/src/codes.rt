// A refusal in numbers: no enum passes to C.
ghost use Rattle.std.specs.Prelude.{◌≡◌};
ghost use Rattle.refusals.specs.Numbered.{numbered};
ghost use Rattle.entries_c.specs.Codes.{refused_by, not_refused};

use refusals::Refusal;

// The paper's number, 0 where the answer is accepted; the entry and the line that 6, 7 and 21 name, else 0.
#[repr(C)]
#[derive(Clone, Copy)]
pub struct Refused {
    pub number: u32,
    pub entry: usize,
    pub line: usize,
}

// How many numbers are in the room; 0 where refused.
#[repr(C)]
#[derive(Clone, Copy)]
pub struct Counted {
    pub refused: Refused,
    pub count: usize,
}

// Nothing is refused.
pub fn accepted() -> Refused
    ensures { result ≡ not_refused }
{
    Refused {
        number: 0,
        entry: 0,
        line: 0,
    }
}

// The paper's number for a refusal, and what it names.
pub fn refused_as(x: Refusal) -> Refused
    ensures { result ≡ refused_by (numbered x) }
{
    let n = refusals::numbers_of(x);
    Refused {
        number: n.number,
        entry: n.entry,
        line: n.line,
    }
}
