// Prints what each bundle on standard input holds, and what each line says. A request is a letter (`b` for a bundle, `l` for a line), two bytes,
// the length of what follows (little-endian), and then its bytes.
#![tactic(auto)]

ghost use Rattle.std.specs.Prelude.{◌<◌, length};
ghost use Rattle.file_bundle.specs.Files.{files_in};
ghost use Rattle.json_strings.specs.Decoded.{WellSpelled};

use file_names::{Name, Version};
use line_actions::{Action, Added, Skipped, Stated};

// ---- bundles

fn print_version(word: &[u8], v: Version) {
    program_printing::word(word);
    program_printing::number(v.0);
}

fn print_kind(name: Name) {
    match name {
        Name::VersionFile(v) => print_version(b"version ", v),
        Name::Checkpoint(v) => print_version(b"checkpoint ", v),
        Name::Marker => program_printing::word(b"marker"),
        Name::Other => program_printing::word(b"other"),
        Name::TooLarge => program_printing::word(b"too-large"),
    }
}

fn print_file(s: &[u8], k: usize)
    requires { k < length (files_in s.now) }
{
    let e = file_bundle::entry_at(s, k);
    print_kind(file_bundle::kind(s, k));
    program_printing::word(b" ");
    program_printing::size(e.size);
    program_printing::word(b" ");
    program_printing::number(e.time.0);
    program_printing::word(b"\n");
}

fn print_bundle(s: &[u8]) {
    match file_bundle::open(s) {
        None => program_printing::word(b"bundle malformed\n"),
        Some(n) => {
            program_printing::word(b"bundle ");
            program_printing::size(n);
            program_printing::word(b"\n");
            for k in 0..n {
                print_file(s, k);
            }
        }
    }
}

// ---- lines

fn print_records(r: Option<u64>) {
    match r {
        Some(n) => program_printing::number(n),
        None => program_printing::word(b"-"),
    }
}

fn print_added(a: Added) {
    program_printing::word(b"add ");
    program_printing::number(a.size);
    program_printing::word(b" ");
    program_printing::number(a.time);
    program_printing::word(b" ");
    print_records(a.records);
}

fn print_remove(line: &[u8], path: usize)
    requires { WellSpelled line.now path }
{
    program_printing::word(b"remove ");
    program_printing::size(json_strings::decoded_size(line, path));
}

fn print_skipped(line: &[u8], k: Skipped)
    requires { WellSpelled line.now k.path }
{
    program_printing::word(b"mergeskip ");
    program_printing::number(k.count);
    program_printing::word(b" ");
    program_printing::number(k.retry);
    program_printing::word(b" ");
    program_printing::size(json_strings::decoded_size(line, k.path));
}

fn print_stated(p: Stated) {
    program_printing::word(b"protocol ");
    program_printing::number(p.reader);
    program_printing::word(b" ");
    program_printing::number(p.writer);
    program_printing::word(b" ");
    program_printing::yes_or_no(p.reader_known);
    program_printing::word(b" ");
    program_printing::yes_or_no(p.writer_known);
}

fn print_action(line: &[u8]) {
    match line_actions::classify(line) {
        Some(Action::Add(a)) => print_added(a),
        Some(Action::Remove(p)) => print_remove(line, p),
        Some(Action::Protocol(p)) => print_stated(p),
        Some(Action::MetaData(_)) => program_printing::word(b"metaData"),
        Some(Action::Mergeskip(k)) => print_skipped(line, k),
        Some(Action::Other) => program_printing::word(b"other"),
        None => program_printing::word(b"malformed"),
    }
}

fn print_shown(line: &[u8]) {
    program_printing::word(b"path \"");
    program_printing::word(shown::path_of(line));
    program_printing::word(b"\" ");
    match shown::records_of(line) {
        Some(Some(n)) => {
            program_printing::word(b"number ");
            program_printing::number(n);
        }
        Some(None) => program_printing::word(b"missing"),
        None => program_printing::word(b"none"),
    }
}

fn print_line(line: &[u8]) {
    program_printing::word(b"line ");
    print_action(line);
    program_printing::word(b"\n");
    print_shown(line);
    program_printing::word(b"\n");
}

// ---- both

fn print_request(letter: u8, s: &[u8]) {
    if letter == b'b' {
        print_bundle(s);
    } else {
        print_line(s);
    }
}

fn print_each(requests: &[u8]) {
    let mut left = requests;
    while let [letter, low, high, behind @ ..] = left {
        let size = usize::from(u16::from_le_bytes([*low, *high]));
        let Some((s, after)) = behind.split_at_checked(size) else {
            return;
        };
        print_request(*letter, s);
        left = after;
    }
}

fn main() {
    let mut buffer = io::large_buffer();
    let got = io::read_full(program_printing::STANDARD_INPUT, &mut buffer);
    print_each(&buffer[..got]);
}
