//! What a reader and the writers are to one another. A law is a clause and no code: a caller whose proof
//! needs it calls it.
ghost use Rattle.std.specs.Prelude.{◌≡◌, ◌++◌, ℕ, ◌<◌, List, [], Result, Ok, length};
ghost use Rattle.fn_rules.specs.declared.function.Level.{Level};
ghost use Rattle.fn_rules.specs.declared.function.ObName.{ObName};
ghost use Rattle.ask_core.specs.Trees.{AnswerTree};
ghost use Rattle.cert_text.specs.declared.item.Item.{Item};
ghost use Rattle.cert_text.specs.declared.item.Part.{Part};
ghost use Rattle.cert_text.specs.Places.{PartPlace, Start, Stands, names_of, part_text};
ghost use Rattle.cert_text.specs.declared.item.CertError.{CertError};
ghost use Rattle.cert_text.specs.Reading.{ReaderState, Reading, ReadsParts};
ghost use Rattle.cert_text.specs.Certificates.{HasTrees, certificate_parts, certificate_text, placed_parts};

/// A law and no code: what the writers append for the whole list of a level, where that is not empty,
/// gives a new reader these parts at their offsets, and then Ok.
pub fn written_certificates_are_read()
    ensures { (tp1 tp2 : List ObName) (level : Level) (trees : List AnswerTree) → 0 < length (names_of tp1 tp2 level)
        → HasTrees (names_of tp1 tp2 level) trees
        → ReadsParts (Reading (Start tp1 tp2) 0 []) (certificate_text (names_of tp1 tp2 level) level trees)
        (placed_parts (Start tp1 tp2) 0 (certificate_parts level trees)) (Ok tt) }
{}

/// A law and no code: what a new reader accepts is what the writers append for the parts that it gave.
pub fn read_certificates_are_written()
    ensures { (tp1 tp2 : List ObName) (bytes : List ℕ) (items : List Item)
        → ReadsParts (Reading (Start tp1 tp2) 0 []) bytes items (Ok tt)
        → (level : Level) × (trees : List AnswerTree) × (0 < length (names_of tp1 tp2 level))
        × HasTrees (names_of tp1 tp2 level) trees
        × (bytes ≡ certificate_text (names_of tp1 tp2 level) level trees)
        × (items ≡ placed_parts (Start tp1 tp2) 0 (certificate_parts level trees)) }
{}

/// A law and no code: whatever bytes are still to come, they give a reader some parts, and end in some way.
pub fn all_bytes_are_read()
    ensures { (reader : ReaderState) (bytes : List ℕ) → (items : List Item) × (end : Result (Unit {0}) CertError)
        × ReadsParts reader bytes items end }
{}

/// A law and no code: two parts that may stand at a place, and that the same bytes begin with, are the same; and each
/// part that may stand there has some bytes.
pub fn parts_are_told_apart()
    ensures one_part { (place : PartPlace) (p q : Part) (rest more : List ℕ) → Stands place p → Stands place q
        → part_text place p ++ rest ≡ part_text place q ++ more → (p ≡ q) × (rest ≡ more) }
    ensures some_bytes { (place : PartPlace) (p : Part) → Stands place p → 0 < length (part_text place p) }
{}
