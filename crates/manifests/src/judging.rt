// What a query says of one manifest: it is dropped where for some condition no value between the bounds of the column meets it.
ghost use Rattle.std.specs.Prelude.{◌≡◌};
ghost use Rattle.rules.specs.Manifests.{Manifest, manifest_of, drops as rule_drops, dropped};
ghost use Rattle.query_conditions.specs.Conditions.{condition_of, Sound};
ghost use Rattle.query_conditions.specs.Reading.{conditions_of, Sounds};
ghost use Rattle.manifest_state.specs.Tables.{Table, Columns, HasColumns};
ghost use Rattle.manifests.specs.Verdicts.{verdict_of};

use manifest_state::IN_BOUNDS;
use query_conditions::{Condition, Query};

// Whether the condition drops a manifest whose columns stand in t, behind `at`.
fn drops(q: &[u8], c: Condition, t: &[u8], at: usize) -> bool
    requires { Sound q.now c × HasColumns t.now at }
    ensures { (columns : Table) → Columns t.now at columns → result ≡ rule_drops (condition_of q.now c) columns }
{
    let Some((v, e)) = field_objects::find_name(t, at, IN_BOUNDS, q, c.column) else {
        return false;
    };
    let bounds = &t[v..e];
    match manifest_state::range_of(bounds).flatten() {
        Some((lo, hi)) => query_comparisons::outside_at(q, c, bounds, lo, hi),
        None => false, // one of them is missing
    }
}

// Whether one of the query's conditions does.
fn drops_any(q: &[u8], asked: Query, t: &[u8], at: usize) -> bool
    requires { Sounds q.now asked.count asked.conditions × HasColumns t.now at }
    ensures { (m : Manifest) → Columns t.now at m.bounds → result ≡ dropped (conditions_of q.now asked.count asked.conditions) m }
{
    asked.conditions[..asked.count]
        .iter()
        .any(|c| drops(q, *c, t, at))
}

// Whether the query keeps the manifest that the text is, if it is well formed.
pub fn judge(t: &[u8], q: &[u8], asked: Query) -> Option<bool>
    requires { Sounds q.now asked.count asked.conditions }
    ensures { result ≡ verdict_of (conditions_of q.now asked.count asked.conditions) (manifest_of t.now) }
{
    let Some((v, e, at)) = manifest_state::manifest_of(t)? else {
        return Some(true); // it states no columns
    };
    Some(!drops_any(q, asked, &t[v..e], at))
}
