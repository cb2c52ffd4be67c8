// What the program does: it reads a sheet from standard input, or two from files, and writes to standard output what its word asks for. The contracts of std
// say nothing of the bytes that come from the system and go to it; what is promised is what a word asks for, and of the bytes that were read what `wave_inputs`
// says; and that all ends and does nothing undefined.
#![tactic(auto)]

ghost use Rattle.std.specs.Prelude.{◌≤◌};
ghost use Rattle.sheet.specs.Sizes.{max_bytes};

use forms::House;
use print_page::MAX_PAGE;
use questions::Refusal;
use wave_faults::MAX_FAULT;
use wave_inputs::TEXT_BYTES;
use wave_line_page::MAX_LINE;
use wave_words::{Asked, MAX_WORD, Query};
use write_lines::MAX_TEXT;

// As long as the system lets a word be, so that a number of any digits is known for one.
const MAX_DIGITS: usize = 131072;

// What the program was started for: a plan where no word is given.
fn read_words(rt: &HostRuntime) -> Option<Asked> {
    let count = wave_files::count_words(rt);
    // The first is the program's own name.
    if count < 2 {
        return Some(Asked::Answer(House::Ours, Query::Plan));
    }
    // A longer word comes as none, which asks for nothing.
    let mut word = [0u8; MAX_WORD];
    let n = wave_files::put_word(rt, 1, &mut word);
    wave_words::asked_by(&word[..n], count - 2)
}

fn write_page(rt: &HostRuntime, page: &[u8]) {
    if let Err(why) = rt.write_all(page) {
        wave_files::say_why(rt, b"write", &why);
    }
}

// Which unit or rule a refusal by 17 or 18 is of, on standard error.
fn show_fault(rt: &HostRuntime, refusal: Refusal)
    requires { refusal.line ≤ max_bytes }
{
    let mut words = [0u8; MAX_FAULT];
    let end = wave_faults::put_fault(&mut words, refusal);
    wave_files::say(rt, &words[..end]);
}

// From standard input to standard output.
fn answer_pipe(rt: &HostRuntime, house: House, query: Query) {
    let mut text = [0u8; TEXT_BYTES];
    if let Some(n) = wave_files::read_stdin(rt, &mut text) {
        let mut page = [0u8; MAX_PAGE];
        let end = wave_inputs::answer_input(house, query, &text, n, &mut page);
        write_page(rt, &page[..end]);
    }
}

fn convert_pipe(rt: &HostRuntime, from: House, to: House) {
    let mut text = [0u8; TEXT_BYTES];
    if let Some(n) = wave_files::read_stdin(rt, &mut text) {
        let mut page = [0u8; MAX_TEXT];
        let converted = wave_inputs::convert_input(from, to, &text, n, &mut page);
        write_page(rt, &page[..converted.place]);
        if let Some(refusal) = converted.refusal {
            show_fault(rt, refusal);
        }
    }
}

// Which file a refusal is of, by the places of the two names among the words, on standard error. Only 27 is of neither.
// stays: the sheet by its number, 0 for neither, as the merge's definitions have it.
fn show_blamed(rt: &HostRuntime, sheet: usize, first: usize, second: usize) {
    match sheet {
        1 => wave_files::say_name(rt, b"wave: the refusal is of the first sheet, ", first),
        2 => wave_files::say_name(rt, b"wave: the refusal is of the second sheet, ", second),
        _ => {
            wave_files::say(
                rt,
                b"wave: no unit of the two sheets has this loader number\n",
            );
        }
    }
}

// From two files to standard output. The words behind `merge` are their names.
fn merge_files(rt: &HostRuntime) {
    let mut one = [0u8; TEXT_BYTES];
    let mut two = [0u8; TEXT_BYTES];
    if let Some((n, m)) = wave_files::read_two(rt, 2, &mut one, 3, &mut two) {
        let mut page = [0u8; MAX_TEXT];
        let merged = wave_inputs::merge_inputs(&one, n, &two, m, &mut page);
        write_page(rt, &page[..merged.place]);
        if let Some(blamed) = merged.blamed {
            show_blamed(rt, blamed.sheet, 2, 3);
        }
    }
}

// The names are the last words behind `line`.
// stays: beside merge_files; one function for both would take a closure over two texts and a page, and ask of it what each call's contract says.
fn find_line(rt: &HostRuntime, loader: u16) {
    let mut one = [0u8; TEXT_BYTES];
    let mut two = [0u8; TEXT_BYTES];
    if let Some((n, m)) = wave_files::read_two(rt, 3, &mut one, 4, &mut two) {
        let mut page = [0u8; MAX_LINE];
        let shown = wave_inputs::line_inputs(&one, n, &two, m, loader, &mut page);
        write_page(rt, &page[..shown.place]);
        if let Some(sheet) = shown.blamed {
            show_blamed(rt, sheet, 3, 4);
        }
    }
}

fn line_files(rt: &HostRuntime) {
    let mut word = [0u8; MAX_DIGITS];
    let n = wave_files::put_word(rt, 2, &mut word);
    match wave_loader::loader_of(&word[..n]) {
        Some(loader) => find_line(rt, loader),
        None => wave_files::say_name(rt, b"wave: LOADER must be one or more digits, not ", 2),
    }
}

// The words there are, on standard error.
fn show_usage(rt: &HostRuntime) {
    wave_files::say(
        rt,
        b"usage: wave [plan|fits|partner|from-partner|to-partner] < SHEET\n",
    );
    wave_files::say(rt, b"       wave merge FIRST SECOND\n");
    wave_files::say(rt, b"       wave line LOADER FIRST SECOND\n");
}

pub fn run(rt: &HostRuntime) {
    match read_words(rt) {
        Some(Asked::Answer(house, query)) => answer_pipe(rt, house, query),
        Some(Asked::Convert(from, to)) => convert_pipe(rt, from, to),
        Some(Asked::Merge) => merge_files(rt),
        Some(Asked::Line) => line_files(rt),
        None => show_usage(rt),
    }
}
