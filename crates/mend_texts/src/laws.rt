//! What is so of the members of layers. It is the contract of a function that works nothing out.
ghost use Rattle.mend_texts.specs.Made.{MembersAreMade};

/// The edits of each member of each layer are made one after another, and lead to its function.
pub fn members_are_made()
    ensures { MembersAreMade }
{}
