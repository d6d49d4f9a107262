//! A document in a line.
ghost use Rattle.std.specs.Prelude.{◌≡◌, ◌++◌, [], ◌∷◌, string_bytes, OnOk};
ghost use Rattle.ot_replies.specs.DocumentTexts.{document_text};

use super::appending::{append_bytes, append_text};
use case_json::doc_write;
use ot_model::{Doc, NoMemory};

/// Writes the text of a document in brackets.
pub(crate) fn write_document(doc: &Doc, out: &mut Vec<u8>) -> Result<(), NoMemory>
    ensures { OnOk result (out.new.items ≡ out.old.items ++ document_text doc.now) }
{
    append_bytes(b"[", out)?;
    doc_write(doc, out)?;
    append_bytes(b"]", out)
}

/// Writes a line of a text, which is given up, and a document.
pub(crate) fn write_document_line(
    front: String,
    doc: &Doc,
    out: &mut Vec<u8>,
) -> Result<(), NoMemory>
    ensures { OnOk result (out.new.items ≡ out.old.items ++ (string_bytes front ++ document_text doc.now ++ 10 ∷ [])) }
{
    append_text(front, out)?;
    write_document(doc, out)?;
    append_bytes(b"\n", out)
}
