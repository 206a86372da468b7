// Plays recordings and compares what is printed, byte for byte, with what an independent program worked out.

#![tactic(auto)]

use player::play_text;
use sharing::Aligned;
use std::fs;

const MOST: usize = 65_536;

const NAMES: [&str; 11] = [
    "valid-1",
    "valid-4",
    "valid-6",
    "refused-3",
    "refused-5",
    "refused-7",
    "damaged-1",
    "damaged-4",
    "damaged-5",
    "damaged-7",
    "long-2",
];

/// Whether the first 65,536 bytes of the recording print just what is expected.
fn agrees(rt: &HostRuntime, name: &str) -> anyhow::Result<bool> {
    let heap = rt.alloc();
    let recorded = format!(in heap; "{name}.rec")?;
    let expected = format!(in heap; "{name}.out")?;
    let recording = fs::read(rt, recorded.as_str())?;
    let lines = fs::read(rt, expected.as_str())?;
    let most = recording.len().min(MOST);
    let text = play_text(heap, Aligned, &recording.as_slice()[0..most])?;
    Ok(text.as_bytes() == lines.as_slice())
}

fn main(rt: HostRuntime) -> anyhow::Result<()> {
    for name in NAMES {
        if agrees(&rt, name)? {
            println!(rt; "{name}: the same")?;
        } else {
            println!(rt; "{name}: DIFFERS")?;
        }
    }
    Ok(())
}
