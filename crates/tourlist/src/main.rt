// tourlist: reads tour.tab and stops.in, runs the tour as tourrun does, and lists what it leaves: set-up, bugs, fields, blocks,
// stacks. What it prints is proved of what it reads (crate inventory).
#![tactic(auto)]

use files::read_file;
use inventory::{LISTING, list_tour};
use std::io;
use std::io::Write;

// Both buffers hold more than what tourrun takes of a file: 64,000 and 4,096 bytes.
fn main(rt: HostRuntime) -> io::Result<()> {
    let mut tab = files::zeros::<65536>();
    let mut stops = files::zeros::<65536>();
    let mut text = [0u8; LISTING];
    let table = read_file(&rt, b"tour.tab", &mut tab);
    let given = read_file(&rt, b"stops.in", &mut stops);
    let start = list_tour(&tab[..table], &stops[..given], &mut text);
    io::writer(&rt).write_all(&text[start..])
}
