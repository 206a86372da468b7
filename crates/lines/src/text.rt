// Lines as text. Each ends in a line feed.
ghost use Rattle.std.specs.Prelude.{◌≡◌, IfOk, string_bytes};
ghost use Rattle.std.specs.List.{flat_map};
ghost use Rattle.lines.specs.Text.{line_bytes};

use crate::line::Line;
use std::alloc::{AllocError, Global};

/// The text of a line, with its line feed.
// This and `transcript` are kept beside `Display for Line`: each answers a String, with a promise of its bytes.
pub fn line_text(heap: Global, line: Line) -> Result<String, AllocError>
    ensures { IfOk result (λ t. string_bytes t ≡ line_bytes line) }
{
    format!(in heap; "{line}\n")
}

/// The text of all lines, one after another.
pub fn transcript(heap: Global, lines: &[Line]) -> Result<String, AllocError>
    ensures { IfOk result (λ t. string_bytes t ≡ flat_map line_bytes lines.now) }
{
    let mut text = String::new(heap);
    for line in lines {
        writeln!(text, "{line}")?;
    }
    Ok(text)
}
