// Prints the three-character list, one entry a line, six octal digits. reference/leaves.rs writes the same lines independently.
#![tactic(auto)]

use std::io;

fn main(rt: HostRuntime) -> io::Result<()> {
    let mut list = [0u16; 1000];
    let count = character::triples::fill(&mut list);
    for entry in list.iter().take(count) {
        println!(rt; "{entry:06o}")?;
    }
    Ok(())
}
