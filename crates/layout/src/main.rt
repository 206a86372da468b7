// Lists a recording from standard input, record by record: at most its first 65,536 bytes.

#![tactic(auto)]

use listing::print_listing;
use std::io;
use std::io::Read;

const MOST: u64 = 65_536;

// `uplink` reads its recording in the same two lines: the two programs share no crate that reads.
fn main(rt: HostRuntime) -> io::Result<()> {
    let mut recording = Vec::new(rt.alloc());
    rt.stdin().take(MOST).read_to_end(&mut recording)?;
    print_listing(&rt, recording.as_slice())
}
