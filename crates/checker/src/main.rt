// The program `check` of document 01: reads types.bin and fit.bin from the current directory and prints the list call's answer.
#![tactic(auto)]

mod text;

use std::io;

// One byte more than a file may have tells a longer one.
fn main(rt: HostRuntime) -> io::Result<()> {
    let mut types = [0; 65537];
    let mut fit = [0; 65537];
    let types_len = program::read(&rt, b"types.bin", &mut types);
    let fit_len = program::read(&rt, b"fit.bin", &mut fit);
    if 65536 < types_len || 65536 < fit_len {
        return println!(rt; "too long");
    }
    let mut text = text::Output::new();
    text::checked(&types[..types_len], &fit[..fit_len], &mut text);
    rt.write_all(text.as_bytes())
}
