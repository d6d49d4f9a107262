//! What is found at the front of bytes, told by the spellings. A law is a clause and no code: a caller whose proof
//! needs it calls it.
ghost use Rattle.std.specs.Prelude.{◌≡◌, ◌↔◌, ℕ, List, []};
ghost use Rattle.fn_rules.specs.declared.function.ObName.{ObName};
ghost use Rattle.ask_core.specs.declared.tree.Tok.{Tok};
ghost use Rattle.cert_text.specs.Spelling as cert;
ghost use Rattle.proof_text.specs.Exact.{FindsExactly};
ghost use Rattle.proof_text.specs.Lines.{end_front, header_front, line_end_front, ob_front};
ghost use Rattle.proof_text.specs.Spelling.{IsSpellableInProof, proof_header_text, newline_text, proof_token};
ghost use Rattle.proof_text.specs.Spelling.{proof_token_text};
ghost use Rattle.proof_text.specs.Tokens.{token_front};

/// A law and no code: a token is found exactly where its spelling stands, with all that comes after it; bytes are cut
/// exactly where they end within the spelling of one, and misspelt exactly where none begins so.
pub fn tokens_are_found_exactly()
    ensures { FindsExactly token_front proof_token_text IsSpellableInProof }
{}

/// A law and no code: the same of the first line of either level, of the line of an obligation, of the newline after a
/// tree, and of the last line.
pub fn lines_are_found_exactly()
    ensures headers { FindsExactly header_front proof_header_text (λ level. Unit {0}) }
    ensures obs { (name : ObName) → FindsExactly (ob_front name) (λ x. cert.ob_text name) (λ x. Unit {0}) }
    ensures line_ends { FindsExactly line_end_front (λ x. newline_text) (λ x. Unit {0}) }
    ensures ends { FindsExactly end_front (λ x. cert.end_text) (λ x. Unit {0}) }
{}

/// A law and no code: the tokens of certificates are tokens of proofs, spelled as there.
pub fn certificate_tokens_are_spelled_alike()
    ensures text { (tok : Tok) → proof_token_text (proof_token tok) ≡ cert.token_text tok }
    ensures spellable { (tok : Tok) → IsSpellableInProof (proof_token tok) ↔ cert.IsSpellable tok }
{}
