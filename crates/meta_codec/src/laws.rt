//! Laws of the definitions.

ghost use Rattle.std.specs.Prelude.{◌≡◌, length, Some};
ghost use Rattle.fam_model.specs.Journal.{body_length};
ghost use Rattle.fam_model.specs.declared.change.Change.{Change};
ghost use Rattle.meta_codec.specs.Body.{HasBody, body};
ghost use Rattle.meta_codec.specs.Reading.{decoded};

/// The body of a change reads as that change alone, and is as long as the room that the change takes.
pub fn one_spelling()
    ensures read { (c : Change) → HasBody c → decoded (body c) ≡ Some c }
    ensures long { (c : Change) → length (body c) ≡ body_length c }
{}
