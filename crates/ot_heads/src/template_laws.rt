//! Laws of templates. Each is the contract of a function that does nothing.
ghost use Rattle.fn_rules.specs.declared.function.Head.{Head};
ghost use Rattle.fn_rules.specs.Properties.{HasTp1, HasTp2};
ghost use Rattle.ot_heads.specs.Heads.{InsertsAndDeletesOnPlain};
ghost use Rattle.ot_heads.specs.Templates.{template_of};

/// The template of each head has TP1, and it has TP2 too, but on plain text with insertions and deletions, where no
/// function has both.
pub fn templates_have_what_can_be_had()
    ensures tp1 { (head : Head) → HasTp1 (template_of head) }
    ensures tp2 { (head : Head) → ¬ InsertsAndDeletesOnPlain head → HasTp2 (template_of head) }
{}
