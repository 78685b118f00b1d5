// The metadata of two lines: the same id, and the same partition columns, one after the other.
ghost use Rattle.std.specs.Prelude.{◌≡◌};
ghost use Rattle.rules.specs.Actions.{MetaData};
ghost use Rattle.rules.specs.Agreement.{agree_tables};
ghost use Rattle.line_actions.specs.Line.{TableIs};
ghost use Rattle.log_replay.specs.Views.{or_no_table, table_at, Inside};
ghost use Rattle.log_agreement.specs.Stating.{Tabling};

use line_actions::Tabled;
use log_replay::Span;

// Whether the metadata x of the line s and y of the line t are the same.
fn same_tabled(s: &[u8], x: Tabled, t: &[u8], y: Tabled) -> bool
    requires { Tabling s.now x × Tabling t.now y }
    ensures { (m n : MetaData) → TableIs s.now m x → TableIs t.now n y → result ≡ agree_tables m n }
{
    json_strings::same_strings(s, x.id, t, y.id)
        && field_containers::same_lists(s, x.columns, t, y.columns)
}

// Whether the metadata in force by two lines is the same. Where neither says any it is; no id is empty, so where one alone does it is not.
pub fn same_tables(src: &[u8], a: Span, b: Span) -> bool
    requires { Inside src.now a × Inside src.now b }
    ensures { result ≡ agree_tables (or_no_table (table_at src.now a)) (or_no_table (table_at src.now b)) }
{
    let s = &src[a.at..a.at + a.size];
    let t = &src[b.at..b.at + b.size];
    match (line_actions::table_of(s), line_actions::table_of(t)) {
        (Some(x), Some(y)) => same_tabled(s, x, t, y),
        (None, None) => true,
        _ => false,
    }
}
