// The program `widen` of document 02: reads types.bin from the current directory, a catalogue of the old form, and puts it on standard
// output in the new form.
#![tactic(auto)]

mod text;

use std::io;

// One byte more than the file may have tells a longer one.
fn main(rt: HostRuntime) -> io::Result<()> {
    let mut types = [0; 65537];
    let len = program::read(&rt, b"types.bin", &mut types);
    if 65536 < len {
        return println!(rt; "too long");
    }
    // As much as 65,536 bytes widen to: with 5,459 bases, four bytes more for each.
    let mut text = [0; 87372];
    rt.write_all(text::printed(&types[..len], &mut text))
}
