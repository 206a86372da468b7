// A whole recording, played on a fresh terminal.
ghost use Rattle.std.specs.Prelude.{◌≡◌, ◌+◌, ◌<◌, ◌≤◌, ◌++◌, IfOk, vec_len, vec_capacity, string_bytes};
ghost use Rattle.std.specs.Option.{option_to_list};
ghost use Rattle.std.specs.List.{flat_map};
ghost use Rattle.lines.specs.Text.{line_bytes};
ghost use Rattle.player.specs.Played.{lines_of, LinesOfTheRecords};

use crate::record::Playing;
use lines::{Line, transcript};
use recording::Reader;
use sharing::HoldingRule;
use std::alloc::{AllocError, Global};
use std::ops::ControlFlow;

/// Adds a line, if there is one, to lines that have room for it.
fn add(lines: &mut Vec<Line>, line: Option<Line>)
    requires { vec_len lines.old < vec_capacity lines.old }
    ensures items { lines.new.items ≡ lines.old.items ++ option_to_list line }
    ensures room { vec_capacity lines.new ≡ vec_capacity lines.old }
    ensures one_more { vec_len lines.new ≤ vec_len lines.old + 1 }
{
    if let Some(line) = line {
        lines.push_reserved(line);
    }
}

/// The lines of a recording, played on a fresh terminal under a holding rule. A subframe that is open at the end is dropped.
pub fn play<R: HoldingRule + Drop>(
    heap: Global,
    rule: R,
    recording: &[u8],
) -> Result<Vec<Line>, AllocError>
    ensures lines { IfOk result (λ v. v.items ≡ lines_of R.reserve rule recording.now) }
    ensures lines_of_the_records { LinesOfTheRecords R.reserve rule recording.now }
{
    // Room for every line is asked for before anything is played: no line is lost for want of memory later.
    let mut lines = Vec::with_capacity(heap, recording.len())?;
    let mut playing = Playing::new(rule);
    let mut reader = Reader::new(recording);
    let mut place = 0;
    // No `for`: each call of `next` is told whether a subframe is open.
    while let Some(item) = reader.next(playing.is_open()) {
        match playing.item(place, item) {
            ControlFlow::Continue(line) => add(&mut lines, line),
            ControlFlow::Break(line) => {
                add(&mut lines, Some(line));
                break;
            }
        }
        place = reader.place();
    }
    let _ended = playing.end();
    Ok(lines)
}

/// What a program prints of a recording: the text of its lines.
pub fn play_text<R: HoldingRule + Drop>(
    heap: Global,
    rule: R,
    recording: &[u8],
) -> Result<String, AllocError>
    ensures { IfOk result (λ t. string_bytes t ≡ flat_map line_bytes (lines_of R.reserve rule recording.now)) }
{
    let lines = play(heap, rule, recording)?;
    transcript(heap, lines.as_slice())
}
