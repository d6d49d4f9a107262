//! What hints have to do with the grammar. These functions work nothing out: their contracts are the laws.

ghost use Rattle.fn_hints.specs.Standing.{WrongTokensAreTold};
ghost use Rattle.fn_hints.specs.Hints.{RefusedFilesHaveHints, ReadFilesHaveNone};

/// The tokens that may stand in place of a wrong one are exactly those with which the tokens before it can go on, be it
/// words, signs, numbers or ends.
pub fn wrong_tokens_are_told()
    ensures { WrongTokensAreTold }
{}

/// A file that is refused has a hint of its fault, and one that is read has none.
pub fn refused_files_have_hints()
    ensures refused { RefusedFilesHaveHints }
    ensures read { ReadFilesHaveNone }
{}
