//! `template [--tp1] [--sites-differ] [--chars-differ] MODE KIND..`: a function of a head to begin with, or that no
//! function of it has both properties.
ghost use Rattle.std.specs.Prelude.{◌≡◌, true, IfOk, Ok};
ghost use Rattle.fn_grammar.specs.Print.{printed};
ghost use Rattle.fn_text.specs.Reading.{function_in};
ghost use Rattle.ot_heads.specs.Templates.{has_kind, template_of};
ghost use Rattle.ot_commands.specs.Template.{IsReplyToTemplate, has_none};

use fn_rules::{Head, Level};
use fn_text::print;
use ot_heads::inserts_and_deletes_on_plain;
use ot_model::NoMemory;
use ot_replies::Reply;
use plain_list::List;
use std::alloc::Global;

/// Whether no function of the head has the level.
pub(crate) fn has_none(level: Level, head: &Head) -> bool
    ensures { result ≡ has_none level head.now }
{
    match level {
        Level::Tp1 => false,
        Level::Tp2 => inserts_and_deletes_on_plain(head),
    }
}

// The canonical text of the template.
fn text(alloc: Global, head: Head) -> Result<Vec<u8>, NoMemory>
    requires { has_kind head ≡ true }
    ensures text { IfOk result (λ text. text.items ≡ printed (template_of head)) }
    ensures reads_back { IfOk result (λ text. function_in text.items ≡ Ok (template_of head)) }
{
    let rules = ot_heads::template(alloc, head)?;
    print(alloc, &rules)
}

/// The reply to the command.
pub fn template(alloc: Global, level: Level, head: Head) -> Result<Reply, NoMemory>
    requires { has_kind head ≡ true }
    ensures { IfOk result (IsReplyToTemplate level head) }
{
    if has_none(level, &head) {
        return Ok(Reply::NoTemplate);
    }
    Ok(Reply::Templated(List::from_vec(text(alloc, head)?)))
}
