// What the program reads, standard input and the files that its words name, and what it says on standard error of them. No contract of std says which bytes the
// system gives.
#![tactic(auto)]

ghost use Rattle.std.specs.Prelude.{◌<◌, ◌≤◌, length, take, IfOk, IfSome, OnOk};
ghost use Rattle.std.specs.Io.KnownBytes.{Consumes, IsAtEnd};

use std::env::FillError;
use std::fmt::InlineText;
use std::fs::File;
use std::io::Read;
use std::rt::Env;
use std::{io, str};

// A name and the NUL behind it have so many bytes at the most.
const PATH_MAX: usize = 4096;

// Longer than any text of an error.
const MAX_WHY: usize = 320;

// On standard error. Where that takes no more, nobody can be told.
pub fn say(rt: &HostRuntime, words: &[u8]) {
    let _ = rt.stderr().write_all(words);
}

// An error's text without the system's number for it, which std puts behind the words.
fn without_number(text: &str) -> &str {
    match text.split_once(" (os error ") {
        Some((words, _)) => words,
        None => text,
    }
}

// A line on standard error: what failed, a colon and the system's word for why.
pub fn say_why(rt: &HostRuntime, what: &[u8], why: &io::Error) {
    let text = InlineText::<{ MAX_WHY }>::of(why);
    say(rt, what);
    say(rt, b": ");
    say(rt, without_number(text.as_str()).as_bytes());
    say(rt, b"\n");
}

// Reads until the input ends or the buffer is full, or a read fails: how many bytes were read, and why no more. They are the next ones of a reader whose bytes are
// known, and all of them where there is room for more. A read may be short, as of a pipe or a terminal.
// stays: the number beside the `Result`, since the contract says which bytes a reader gave before it failed, too; and the `while`, since a read may be short.
fn read_all<R: Read>(file: &mut R, buffer: &mut [u8]) -> (usize, io::Result<()>)
    ensures within { result.0 ≤ length buffer.new }
    ensures bytes { Consumes (R.remaining file.old) (R.remaining file.new) (take result.0 buffer.new) }
    ensures end { OnOk result.1 (result.0 < length buffer.new → IsAtEnd (R.remaining file.new)) }
{
    let mut done: usize = 0;
    while done < buffer.len() {
        match file.read(&mut buffer[done..]) {
            Ok(0) => return (done, Ok(())),
            Ok(n) => done += n,
            Err(why) => return (done, Err(why)),
        }
    }
    (done, Ok(()))
}

// How many bytes were read, where no read failed on the way.
fn read_whole<R: Read>(file: &mut R, buffer: &mut [u8]) -> io::Result<usize>
    ensures { IfOk result (λ n. n ≤ length buffer.new) }
{
    let (length, end) = read_all(file, buffer);
    end?;
    Ok(length)
}

// Standard input, by how many bytes were read; a word, and nothing, where it cannot be read.
pub fn read_stdin(rt: &HostRuntime, buffer: &mut [u8]) -> Option<usize>
    ensures { IfSome result (λ n. n ≤ length buffer.new) }
{
    match read_whole(&mut rt.stdin(), buffer) {
        Ok(length) => Some(length),
        Err(why) => {
            say_why(rt, b"read", &why);
            None
        }
    }
}

// A name is text to std, so no file is opened by one that is not UTF-8.
fn open_read(rt: &HostRuntime, name: &[u8]) -> io::Result<File> {
    match str::from_utf8(name) {
        Ok(path) => File::open(rt, path),
        Err(_) => Err(io::Error::from(io::ErrorKind::InvalidFilename)),
    }
}

// The file of this name, by how many bytes were read.
fn read_file(rt: &HostRuntime, name: &[u8], buffer: &mut [u8]) -> io::Result<usize>
    ensures { IfOk result (λ n. n ≤ length buffer.new) }
{
    let mut file = open_read(rt, name)?;
    read_whole(&mut file, buffer)
}

// The same, and a word, and nothing, where it cannot be opened or read, as where it is a folder.
fn read_or_say(rt: &HostRuntime, name: &[u8], buffer: &mut [u8]) -> Option<usize>
    ensures { IfSome result (λ n. n ≤ length buffer.new) }
{
    match read_file(rt, name, buffer) {
        Ok(length) => Some(length),
        Err(why) => {
            // The word before the system's own, which says why.
            say(rt, b"wave: cannot read ");
            say_why(rt, name, &why);
            None
        }
    }
}

// The file that the i-th word names. No file has a name as long as PATH_MAX, so a word that does not fit is none.
fn read_named(rt: &HostRuntime, i: usize, buffer: &mut [u8]) -> Option<usize>
    ensures { IfSome result (λ n. n ≤ length buffer.new) }
{
    let mut name = [0u8; PATH_MAX];
    match rt.arg(i, &mut name) {
        Ok(n) => read_or_say(rt, &name[..n], buffer),
        Err(why) => {
            say(
                rt,
                match why {
                    FillError::NotPresent => b"wave: cannot read a file: Invalid argument\n",
                    FillError::TooLong => b"wave: cannot read a file: File name too long\n",
                },
            );
            None
        }
    }
}

// The files that the i-th word and the j-th one name, by how many bytes were read of each. Where the first cannot be read, the second is left alone.
pub fn read_two(
    rt: &HostRuntime,
    i: usize,
    one: &mut [u8],
    j: usize,
    two: &mut [u8],
) -> Option<(usize, usize)>
    ensures { IfSome result (λ n. (n.0 ≤ length one.new) × (n.1 ≤ length two.new)) }
{
    let first = read_named(rt, i, one)?;
    let second = read_named(rt, j, two)?;
    Some((first, second))
}

// How many words the program was started with, its own name among them.
pub fn count_words(rt: &HostRuntime) -> usize {
    (0..usize::MAX)
        .find(|i| matches!(rt.arg(*i, &mut []), Err(FillError::NotPresent)))
        .unwrap_or(usize::MAX)
}

// The i-th word at the start of the buffer, and its length. One that is longer than the buffer comes as none, and so does one that is not there.
pub fn put_word(rt: &HostRuntime, i: usize, buffer: &mut [u8]) -> usize
    ensures { result ≤ length buffer.new }
{
    rt.arg(i, buffer).unwrap_or(0)
}

// A word on standard error, and the i-th word of the program behind it.
pub fn say_name(rt: &HostRuntime, word: &[u8], i: usize) {
    let mut name = [0u8; PATH_MAX];
    let n = put_word(rt, i, &mut name);
    say(rt, word);
    say(rt, &name[..n]);
    say(rt, b"\n");
}
