//! Laws on keys and their texts: each is the contract of a function that does nothing.
ghost use Rattle.std.specs.Prelude.{◌≡◌, ◌↔◌, List, ℕ, Some, None};
ghost use Rattle.annex_base.specs.Lines.{IsOneLine};
ghost use Rattle.annex_key.specs.KeyText.{KeyParts, IsKey, IsKeyText, key_text};
ghost use Rattle.annex_key.specs.KeyFile.{file_text};
ghost use Rattle.annex_key.specs.FileKey.{key_of_file};
ghost use Rattle.annex_key.specs.View.{backend_part, first_fault, name_part, size_part};

/// A text is that of one key at most, and a file name that of one text.
pub fn names_are_unique()
    ensures texts { (j k : KeyParts) → IsKey j → IsKey k → key_text j ≡ key_text k → j ≡ k }
    ensures files { (a b : List ℕ) → file_text a ≡ file_text b → a ≡ b }
{}

/// The key that is computed of a file name is the one whose file has this name.
pub fn files_name_their_keys()
    ensures { (file key : List ℕ) → (key_of_file file ≡ Some key) ↔ (IsKeyText key × (file ≡ file_text key)) }
{}

/// A text has no fault exactly where it is a key's, and then it is one line.
pub fn key_texts_have_no_fault()
    ensures sound { (text : List ℕ) → (first_fault text ≡ None) ↔ IsKeyText text }
    ensures line { (text : List ℕ) → IsKeyText text → IsOneLine text }
{}

/// A key's text says the parts that it was spelled of.
pub fn texts_say_their_parts()
    ensures backend { (k : KeyParts) → IsKey k → backend_part (key_text k) ≡ k.backend }
    ensures size { (k : KeyParts) → IsKey k → size_part (key_text k) ≡ k.size }
    ensures name { (k : KeyParts) → IsKey k → name_part (key_text k) ≡ k.name }
{}
