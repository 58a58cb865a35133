// Runs document 01's example of each refusal from 1 to 6, and both sides of every limit: the rows of data/catalogues.txt and of
// data/fits.txt, each a name and the image that it stands for.
// The file `stdout` was worked out from the document: each line says in words what the image is, and behind it stands the number that
// the document's row of that case gives, or 0 where none does. One limit, 16,777,216 bytes, does not fit a program's stack: the
// comparison with the original runs it.
#![tactic(auto)]

mod drawing;

use numbers::refusals::Refusal;
use std::{fs, io};

// A refusal's number, or 0.
fn number(checked: Result<(), Refusal>) -> u64 {
    match checked {
        Ok(()) => 0,
        Err(refusal) => refusal.number(),
    }
}

// A line for each row: its name, and the number that its image is refused with, or 0; 9, which no image has, where the image is longer than
// the longest of a row, a fit of 30,001 attributes. A line of the file without a colon is a comment.
fn say_file<F>(rt: &HostRuntime, path: &str, check: F) -> io::Result<()>
where
    F: Fn(&[u8]) -> Result<(), Refusal>,
    requires { F.IsAlwaysCallable check }
{
    let mut bytes = [0; 65536];
    let n = match fs::open(rt, path) {
        Ok(mut file) => program::fill(&mut file, &mut bytes),
        Err(e) => return eprintln!(rt; "{path}: {e}"),
    };
    for line in bytes[..n].split(|x| *x == b'\n') {
        if let Some(colon) = drawing::find(line, b':') {
            rt.write_all(&line[..colon])?;
            let row = &line[colon + 1..];
            let mut image = [0; 360400];
            drawing::draw(row, &mut image);
            let number = match image.get(..drawing::first_number(row)) {
                Some(whole) => number(check(whole)),
                None => 9,
            };
            println!(rt; ": {number}")?;
        }
    }
    Ok(())
}

fn main(rt: HostRuntime) -> io::Result<()> {
    say_file(&rt, "catalogues.txt", catalogue_refusals::check)?;
    say_file(&rt, "fits.txt", fit_refusals::check)
}
