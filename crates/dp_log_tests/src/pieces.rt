// Texts that come in pieces.

ghost use Rattle.std.specs.Prelude.{◌+◌, ◌<◌, ◌≤◌, [], length};

use dp_base::Memory;
use dp_lines::LineJudge;

/// The next bytes, at most so many.
fn piece_of(text: &[u8], came: usize, size: usize) -> &[u8]
    requires left { came < length text.now }
    requires some { 0 < size }
    ensures some { 0 < length result.now }
    ensures within { came + length result.now ≤ length text.now }
{
    let (_, rest) = text.split_at(came);
    let (piece, _) = rest.split_at(size.min(rest.len()));
    piece
}

/// The answer for a text that comes in pieces of so many bytes, and how many had come where a piece answers.
pub fn in_pieces<J: LineJudge + Drop>(
    mut judge: J,
    text: &[u8],
    size: usize,
) -> Result<(J::Answer, Option<usize>), Memory>
    requires begun { J.behind judge [] }
    requires few { length text.now ≤ 1000 }
    requires some { 0 < size }
{
    let mut came = 0;
    while came < text.len() {
        let piece = piece_of(text, came, size);
        came += piece.len();
        match judge.feed(piece)? {
            Some(answer) => return Ok((answer, Some(came))),
            None => {}
        }
    }
    Ok((judge.finish()?, None))
}
