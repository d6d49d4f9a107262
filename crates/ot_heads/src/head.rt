//! Heads by what they can have.
ghost use Rattle.std.specs.Prelude.{◌≡◌};
ghost use Rattle.ot_heads.specs.Heads.{inserts_and_deletes_on_plain, is_plain};

use fn_rules::Head;
use ot_model::Mode;

fn is_plain(mode: Mode) -> bool
    ensures { result ≡ is_plain mode }
{
    match mode {
        Mode::Plain => true,
        Mode::Tomb => false,
    }
}

/// Whether the head is of plain text, and has insertions and deletions.
pub fn inserts_and_deletes_on_plain(head: &Head) -> bool
    ensures { result ≡ inserts_and_deletes_on_plain head.now }
{
    is_plain(head.mode) && head.ins && head.del
}
