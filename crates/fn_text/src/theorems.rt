//! What the grammar and the reader have to do with each other. These functions work nothing out: their
//! contracts are the laws.
ghost use Rattle.fn_grammar.specs.Theorems.{PrintsAreTexts};
ghost use Rattle.fn_text.specs.Theorems.{TextsAreRead, TextsAreUnique, PrintsAreRead};
ghost use Rattle.fn_text.specs.GoingOn.{GoingTokensBegin};
ghost use Rattle.fn_text.specs.Refusals.{RefusalsAreFinal, FilesHaveOneAnswer, AnswersAreRead};

/// The text of a function is read as that function, so it is the text of no other one.
pub fn texts_of_functions_are_read()
    ensures read { TextsAreRead }
    ensures unique { TextsAreUnique }
{}

/// The canonical text of a function within the limits is a text of it, and is read as it.
pub fn canonical_texts_are_read_back()
    ensures text { PrintsAreTexts }
    ensures read { PrintsAreRead }
{}

/// A text that is refused is refused for its first wrong token: the tokens before it can go on, and with it they
/// can not. Its cause is the first row that fits of those that are told by the tokens alone. Some file of the
/// grammar begins with tokens that can go on, with two exceptions.
pub fn refusals_are_final()
    ensures first_wrong { RefusalsAreFinal }
    ensures begins { GoingTokensBegin }
{}

/// Each file of bytes has exactly one answer: it is the text of one function, or it is refused for one fault, and
/// never both. It is what is read.
pub fn files_have_one_answer()
    ensures one { FilesHaveOneAnswer }
    ensures read { AnswersAreRead }
{}
