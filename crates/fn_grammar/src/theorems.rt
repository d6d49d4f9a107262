//! What the grammar and the canonical text have to do with each other. These functions work nothing out: their
//! contracts are the laws.
ghost use Rattle.fn_grammar.specs.Theorems.{LexesBack, PrintsAreTexts, TextsAreValid, PrintsHaveFewestParentheses};

/// Bytes are the text of no function that is not within the limits.
pub fn texts_are_valid()
    ensures { TextsAreValid }
{}

/// The canonical text of a function has the function's tokens.
pub fn canonical_text_lexes_back()
    ensures { LexesBack }
{}

/// The canonical text of a function within the limits is a text of it.
pub fn canonical_texts_are_texts()
    ensures { PrintsAreTexts }
{}

/// No other text of a guard has fewer parentheses than the canonical one.
pub fn canonical_guards_have_the_fewest_parentheses()
    ensures { PrintsHaveFewestParentheses }
{}
