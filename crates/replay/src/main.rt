// Replays the recorded answers against the calls, with no Rust at hand. data/recorded.bin is the file
// rust/compare/recorded.bin; RECORDED.md beside that has its format and says how it was made.
#![tactic(auto)]

mod record;

use std::{fs, io};

fn report(rt: &impl Print, passed: u32, failed: u64) -> io::Result<()> {
    println!(rt; "{passed} passed, {failed} failed")
}

fn replay(rt: &impl Print, b: &[u8]) -> io::Result<()> {
    let Some((count, mut rest)) = record::count(b) else {
        return report(rt, 0, 1);
    };
    let mut tried = 0;
    let mut passed = 0;
    for i in 0..count {
        let Some((record, behind)) = record::first(rest) else {
            break;
        };
        // whatever the buffer held before
        if record.is_given(0x5a) && record.is_given(0xa5) {
            passed += 1;
        } else {
            println!(rt; "record {i} differs")?;
        }
        rest = behind;
        tried = i + 1;
    }
    let mut failed = u64::from(count - passed);
    // What stands behind the records that were whole is a failure of its own.
    if !rest.is_empty() {
        println!(rt; "record {tried}: bytes that make no whole record")?;
        failed += 1;
    }
    report(rt, passed, failed)
}

fn main(rt: HostRuntime) -> io::Result<()> {
    // as much as the file may have, and more: one that is cut off ends within a record
    let mut bytes = [0; 73728];
    match fs::open(&rt, "recorded.bin") {
        Ok(mut file) => {
            let n = program::fill(&mut file, &mut bytes);
            replay(&rt, &bytes[..n])
        }
        Err(e) => eprintln!(rt; "recorded.bin: {e}"),
    }
}
