// tourrun: reads tour.tab and stops.in, runs the tour, prints two lines. What it prints is proved of what it reads (crate tour).
#![tactic(auto)]

use files::read_file;
use std::io;
use std::io::Write;
use tour::{TEXT, play};

// Both buffers hold more than what tourrun takes of a file: 64,000 and 4,096 bytes.
fn main(rt: HostRuntime) -> io::Result<()> {
    let mut tab = files::zeros::<65536>();
    let mut stops = files::zeros::<65536>();
    let mut text = [0u8; TEXT];
    let table = read_file(&rt, b"tour.tab", &mut tab);
    let given = read_file(&rt, b"stops.in", &mut stops);
    let start = play(&tab[..table], &stops[..given], &mut text);
    io::writer(&rt).write_all(&text[start..])
}
