// What the programs share: the bytes of a file, and text that is made whole before it is written.
#![tactic(auto)]

ghost use Rattle.std.specs.Prelude.{◌≡◌, [], ◌++◌, ◌+◌, ◌≤◌};
ghost use Rattle.arrayvec.specs.ArrayString.{array_string_len};
ghost use Rattle.program.specs.Counts.{IsPrefixLen};
ghost use Rattle.program.specs.Text as Text;
ghost use Rattle.program.specs.Text.{decimal};

use arrayvec::ArrayString;
use itoa::Buffer;
use std::io::{ErrorKind, Read};
use std::rt::Files;
use std::{fs, str};

// The start of the file, as much as `b` holds. A file that is not there is empty; one that cannot be opened for another reason counts as
// empty too, which every image refuses, and the reason goes to standard error.
pub fn read(rt: &(impl Files + Eprint), path: &[u8], b: &mut [u8]) -> usize
    ensures { IsPrefixLen result b.new }
{
    // a path of bytes: a `&str` would ask callers for text
    let Ok(name) = str::from_utf8(path) else {
        let _ = eprintln!(rt; "a path that is no text");
        return 0;
    };
    match fs::open(rt, name) {
        Ok(mut file) => fill(&mut file, b),
        Err(e) => {
            if e.kind() != ErrorKind::NotFound {
                let _ = eprintln!(rt; "{name}: {e}");
            }
            0
        }
    }
}

// Reads until `b` is full, the file ends or a read fails: how many bytes stand at the start of `b`.
pub fn fill(file: &mut impl Read, b: &mut [u8]) -> usize
    ensures { IsPrefixLen result b.new }
{
    // a count of bytes, and no index: a read gives as many as it likes
    let mut done = 0;
    while done < b.len() {
        match file.read(&mut b[done..]) {
            Ok(n) if 0 < n => done += n,
            _ => break,
        }
    }
    done
}

// A number in decimal, behind the text.
pub fn number<const N: usize>(text: &mut ArrayString<N>, n: u64)
    requires { array_string_len text.old + 20 ≤ N }
    ensures text { text.new.bytes ≡ text.old.bytes ++ decimal n }
    ensures len { array_string_len text.new ≤ array_string_len text.old + 20 }
{
    let mut digits = Buffer::new();
    text.push_str(digits.format(n));
}

// A number, and the line's end.
pub fn ended<const N: usize>(text: &mut ArrayString<N>, n: u64)
    requires { array_string_len text.old + 21 ≤ N }
    ensures text { text.new.bytes ≡ text.old.bytes ++ Text.ended n }
    ensures len { array_string_len text.new ≤ array_string_len text.old + 21 }
{
    number(text, n);
    text.push('\n');
}

// The line of a refusal.
pub fn refused<const N: usize>(text: &mut ArrayString<N>, n: u64)
    requires { array_string_len text.old + 29 ≤ N }
    ensures text { text.new.bytes ≡ text.old.bytes ++ Text.refused n }
    ensures len { array_string_len text.new ≤ array_string_len text.old + 29 }
{
    text.push_str("refused ");
    ended(text, n);
}
