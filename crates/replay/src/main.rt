// Runs the library on cases that the Rust crate answered and counts those where the two differ. Cases come in by standard input, as many as there are
// (stream.rt; rust/differential/cases.rs makes them), and one line goes out. Beside src/ stands the fixed list that the gate runs. It is a test: its
// contracts say next to nothing, and what is proved of it is that it is safe and ends.
#![tactic(auto)]

use std::io;
use stores::Stores;

mod answers;
mod bodies;
mod cases;
mod files;
mod given;
mod heads;
mod runs;
mod seen;
mod stores;
mod stream;

// The stores hold whatever a block of a mebibyte can give.
fn main(rt: HostRuntime) -> io::Result<()> {
    let mut block = [0; stream::MEBIBYTE];
    let mut stores = Stores {
        counts: [0; stores::ROOM],
        xs: [0.0; stores::ROOM],
        ys: [0.0; stores::ROOM],
        zs: [0.0; stores::ROOM],
        ms: [0.0; stores::ROOM],
    };
    let mut out = [0; stream::MEBIBYTE];
    let tally = stream::run(&mut rt.stdin(), &mut block, &mut stores, &mut out);
    println!(rt; "{tally}")
}
