// The lines that the test programs write: a name, and an answer.
use crate::REFUSED;
use std::io;

// Writes the line of a name.
pub fn write_line(rt: &impl Print, name: &str, answer: u64) -> io::Result<()> {
    if answer < REFUSED {
        println!(rt; "{name}: {answer}")
    } else {
        let refusal = answer - REFUSED;
        println!(rt; "{name}: refusal {refusal}")
    }
}

// Writes the lines of as many names as there are answers.
pub fn write_lines(rt: &impl Print, names: &[&str], answers: &[u64]) -> io::Result<()> {
    for (name, answer) in names.iter().zip(answers) {
        write_line(rt, name, *answer)?;
    }
    Ok(())
}
