// What is shown of one line: the path as its add writes it, and the add's number of records. Every byte string has an answer.
#![tactic(auto)]

ghost use Rattle.std.specs.Prelude.{◌≡◌};
ghost use Rattle.rules.specs.Actions.{path_shown, path_place, records_shown};
ghost use Rattle.shown.specs.Shown.{shown_is, adding_is};

// What is shown of the line's action.
pub fn judge(line: &[u8]) -> Option<(usize, usize, Option<u64>)>
    ensures { result ≡ adding_is (records_shown line.now) (path_place line.now) }
{
    if !file_lines::is_line(line) {
        return None;
    }
    line_actions::add_of(line).map(|a| (a.path, a.end, a.records))
}

// The raw path between its quotes, as a part of the line; an empty part if the line is no well-formed add.
pub fn path_of<'a>(line: &'a [u8]) -> &'a [u8]
    ensures { result.now ≡ path_shown line.now }
{
    match judge(line) {
        Some((from, to, _)) => &line[from..to],
        None => &line[..0],
    }
}

// The number of records of the line's add.
pub fn records_of(line: &[u8]) -> Option<Option<u64>>
    ensures { result ≡ shown_is (records_shown line.now) }
{
    judge(line).map(|(_, _, records)| records)
}
