// Plays a recording from standard input on a terminal under the aligned rule: at most its first 65,536 bytes.

#![tactic(auto)]

use player::play_text;
use sharing::Aligned;
use std::io;
use std::io::Read;

const MOST: u64 = 65_536;

// `layout` reads its recording in the same two lines: the two programs share no crate that reads.
fn main(rt: HostRuntime) -> io::Result<()> {
    let mut recording = Vec::new(rt.alloc());
    rt.stdin().take(MOST).read_to_end(&mut recording)?;
    let text = play_text(rt.alloc(), Aligned, recording.as_slice())?;
    rt.print(text)
}
