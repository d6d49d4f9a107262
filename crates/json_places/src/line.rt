//! Lines and columns.
ghost use Rattle.std.specs.Prelude.{◌≡◌, ◌≤◌, ◌<◌, ◌^◌, length};
ghost use Rattle.json_places.specs.Lines.{behind_byte, continues, line_column};

/// A line and a column, both from 1; a column counts characters.
#[derive(Clone, Copy, PartialEq, Eq)]
pub struct LineColumn {
    pub line: u64,
    pub column: u64,
}

fn continues(byte: u8) -> bool
    ensures { result ≡ continues byte }
{
    128 <= byte && byte <= 191
}

// The place behind a byte.
fn behind_byte(at: LineColumn, byte: u8) -> LineColumn
    requires line { at.line < 2 ^ 63 }
    requires column { at.column < 2 ^ 63 }
    ensures { result ≡ behind_byte at byte }
{
    if byte == b'\n' {
        return LineColumn {
            line: at.line + 1,
            column: 1,
        };
    }
    if continues(byte) {
        return at;
    }
    LineColumn {
        line: at.line,
        column: at.column + 1,
    }
}

/// The line and the column of the byte at a place of a text.
pub fn line_column(text: &[u8], offset: usize) -> LineColumn
    ensures { result ≡ line_column text.now offset }
{
    let mut at = LineColumn { line: 1, column: 1 };
    for byte in &text[..offset.min(text.len())] {
        at = behind_byte(at, *byte);
    }
    at
}
