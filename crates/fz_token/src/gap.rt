//! Blanks and comments.

ghost use Rattle.std.specs.Prelude.{◌≡◌, ◌≤◌, ◌+◌, drop, length, false};
ghost use Rattle.fz_token.specs.Gap as spec;

fn is_blank(byte: u8) -> bool
    ensures { result ≡ spec.is_blank byte }
{
    matches!(byte, b' ' | b'\t' | b'\r' | b'\n')
}

/// The first place from `from` on whose byte is no blank and in no comment; else the text's length.
pub fn gap_end(text: &[u8], from: usize) -> usize
    requires { from ≤ length text.now }
    ensures value { result ≡ spec.gap_end from false (drop from text.now) }
    ensures within { (from ≤ result) × (result ≤ length text.now) }
{
    let mut in_comment = false;
    for at in from..text.len() {
        let byte = text[at];
        if byte == b'\n' {
            in_comment = false;
        } else if in_comment || byte == b'%' {
            in_comment = true;
        } else if !is_blank(byte) {
            return at;
        }
    }
    text.len()
}
