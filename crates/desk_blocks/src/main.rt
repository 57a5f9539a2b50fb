// Prints the table of the blocks that come with the desk, line by line as in a show file. It is no show by itself: its last block has joins.
#![tactic(auto)]

use plain_runs::DESK_BYTES;
use std::io;
use std::io::Write;

fn main(rt: HostRuntime) -> io::Result<()> {
    let mut out = [0u8; DESK_BYTES];
    plain_runs::generate(&mut out);
    rt.stdout().write_all(&out)
}
