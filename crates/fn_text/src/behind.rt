//! What a token that goes on makes of the control.

ghost use Rattle.std.specs.Prelude.{◌≡◌, ◌+◌, true};
ghost use Rattle.fn_tokens.specs.Kinds.{with_kind};
ghost use Rattle.fn_tokens.specs.Moves.{HasRoom};
ghost use Rattle.fn_text.specs.Reader.{want_behind, control_behind};

use fn_rules::{Cmp, Head, Side, Sort};
use fn_tokens::{AfterLine, Control, TokenMove, Want};
use ot_model::Kind;

fn with_kind(head: Head, kind: Kind) -> Head
    ensures { result ≡ with_kind head kind }
{
    match kind {
        Kind::Ins => Head { ins: true, ..head },
        Kind::Del => Head { del: true, ..head },
        Kind::Upd => Head { upd: true, ..head },
    }
}

fn with_sites(head: Head) -> Head
    ensures { result ≡ record head { sites_differ = true } }
{
    Head {
        sites_differ: true,
        ..head
    }
}

fn with_chars(head: Head) -> Head
    ensures { result ≡ record head { chars_differ = true } }
{
    Head {
        chars_differ: true,
        ..head
    }
}

/// What may follow an atom: an offset only over positions.
fn behind_atom(sort: Sort, left: Side, cmp: Cmp) -> Want
    ensures { result ≡ want_behind sort left cmp }
{
    match sort {
        Sort::Pos => Want::Offset(left, cmp),
        Sort::Site => Want::Operator,
        Sort::Char => Want::Operator,
    }
}

fn set_head(control: &mut Control, want: Want, head: Head)
    ensures { control.new ≡ record control.old { want = want; head = head } }
{
    control.want = want;
    control.head = head;
}

// A block is begun, whose kinds were read.
fn begin_block(control: &mut Control, first: Kind, second: Kind)
    ensures { control.new ≡ control_behind control.old (TokenMove.BeginBlock first second) }
{
    control.want = Want::BlockEnd;
    control.begun = true;
    control.first = first;
    control.second = second;
    control.seen = control.seen.with(first, second);
    control.cases = 0;
}

// The guard of one more case is next.
fn begin_case(control: &mut Control)
    requires { HasRoom control.old TokenMove.BeginCase }
    ensures { control.new ≡ control_behind control.old TokenMove.BeginCase }
{
    control.want = Want::Operand;
    control.cases += 1;
    control.atoms = 0;
}

// One more pair of parentheses is open.
fn open(control: &mut Control)
    requires { HasRoom control.old TokenMove.Open }
    ensures { control.new ≡ control_behind control.old TokenMove.Open }
{
    control.want = Want::Operand;
    control.outside = control.outside + control.nots + 1;
    control.nots = 0;
}

// One more `not` stands before the operand.
fn negate(control: &mut Control)
    requires { HasRoom control.old TokenMove.Negate }
    ensures { control.new ≡ control_behind control.old TokenMove.Negate }
{
    control.want = Want::Operand;
    control.nots += 1;
}

// The first token of one more atom was read.
fn begin_atom(control: &mut Control, want: Want)
    requires { HasRoom control.old TokenMove.Always }
    ensures { control.new ≡ record control.old { want = want; atoms = control.old.atoms + 1 } }
{
    control.want = want;
    control.atoms += 1;
}

// A whole operand was read.
fn end_operand(control: &mut Control, want: Want)
    ensures { control.new ≡ record control.old { want = want; nots = 0 } }
{
    control.want = want;
    control.nots = 0;
}

/// The control goes on behind a token that does this.
#[inline(always)]
pub(crate) fn go_behind(control: &mut Control, move_: TokenMove)
    requires { HasRoom control.old move_ }
    ensures { control.new ≡ control_behind control.old move_ }
{
    match move_ {
        TokenMove::Skip(want) => control.want = want,
        TokenMove::SetLanguage(language) => {
            control.language = language;
            control.want = Want::LineEnd(AfterLine::Text);
        }
        TokenMove::SetMode(mode) => {
            control.head.mode = mode;
            control.want = Want::LineEnd(AfterLine::Kinds);
        }
        TokenMove::Declare(kind) => {
            set_head(control, Want::NextKind, with_kind(control.head, kind));
        }
        TokenMove::AssumeSites => set_head(control, Want::Differ, with_sites(control.head)),
        TokenMove::AssumeChars => set_head(control, Want::Differ, with_chars(control.head)),
        TokenMove::BlockWord(line, column) => {
            control.line = line;
            control.column = column;
            control.want = Want::BlockFirst;
        }
        TokenMove::BeginBlock(first, second) => begin_block(control, first, second),
        TokenMove::BeginCase => begin_case(control),
        TokenMove::Open => open(control),
        TokenMove::Negate => negate(control),
        TokenMove::Always => begin_atom(control, Want::Operator),
        TokenMove::BeginAtom(sort, left) => begin_atom(control, Want::Comparison(sort, left)),
        TokenMove::Compare(sort, left, cmp) => control.want = behind_atom(sort, left, cmp),
        TokenMove::Shift(..) | TokenMove::Close => control.want = Want::Operator,
        TokenMove::And | TokenMove::Or => end_operand(control, Want::Operand),
        TokenMove::Colon => end_operand(control, Want::Result),
        TokenMove::EndCase(_) => control.want = Want::Line,
        TokenMove::End => {
            control.begun = false;
            control.want = Want::LineEnd(AfterLine::File);
        }
    }
}
