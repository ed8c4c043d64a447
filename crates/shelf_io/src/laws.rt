//! Laws of every shelf, as contracts of calls that do nothing.
ghost use Rattle.std.specs.Prelude.{◌≡◌, ◌≤◌, ◌+◌, ℕ, List, [], ◌∷◌, ◌++◌, length, Result};
ghost use Rattle.shelf_io.specs.Shelf.{Files};
ghost use Rattle.shelf_io.specs.Stages.{Save, files_saved, IsFromStage, Stays, Writes, Saves};
ghost use Rattle.shelf_io.specs.declared.shelf.WriteFault.{WriteFault};

use crate::Shelf;

/// Between two calls a stop finds just the files held; and from every moment on it may find them.
pub fn between_calls<H: Shelf>()
    ensures only_held { (shelf : H) (now : ℕ) (held found : Files) → H.moment shelf ≡ Some now
        → H.holds shelf ≡ Some held → H.may_be_found shelf now found → found ≡ held }
    ensures held_is_found { (shelf : H) (now m : ℕ) (held : Files) → H.moment shelf ≡ Some now → m ≤ now
        → H.holds shelf ≡ Some held → H.may_be_found shelf m held }
{}

/// A program that writes names one after the other: how it goes on by one call. The clauses of `load` and `write` are
/// `Stays` and `Writes`.
pub fn saves_go_on<H: Shelf>()
    ensures begin { (shelf : H) → Saves H.holds H.moment H.may_be_found [] shelf shelf }
    ensures load { (saves : List Save) (first mid last : H) → Saves H.holds H.moment H.may_be_found saves first mid
        → Stays H.holds H.moment H.may_be_found mid last → Saves H.holds H.moment H.may_be_found saves first last }
    ensures write { (saves : List Save) (save : Save) (first mid last : H)
        → Saves H.holds H.moment H.may_be_found saves first mid
        → Writes H.holds H.moment H.may_be_found (Ok tt) save mid last
        → Saves H.holds H.moment H.may_be_found (saves ++ save ∷ []) first last }
{}

/// After a stop at any moment of such a program, the files are at a stage of its writes: they are those after some of
/// the writes, except for the name of the next.
pub fn stops_at_stages<H: Shelf>()
    ensures held { (saves : List Save) (first last : H) (held : Files)
        → Saves H.holds H.moment H.may_be_found saves first last → H.holds last ≡ Some held
        → (files : Files) × (H.holds first ≡ Some files) × (held ≡ files_saved files saves) }
    ensures stages { (saves : List Save) (first last : H) (files held : Files) (start : ℕ) (found : Files)
        → Saves H.holds H.moment H.may_be_found saves first last
        → H.holds first ≡ Some files → H.holds last ≡ Some held
        → H.moment first ≡ Some start → H.may_be_found last start found → IsFromStage files saves 0 found }

    // the last write may have any answer
    ensures in_write { (saves : List Save) (save : Save) (result : Result (Unit {0}) WriteFault) (first mid last : H)
        (files held : Files) (start : ℕ) (found : Files)
        → Saves H.holds H.moment H.may_be_found saves first mid
        → Writes H.holds H.moment H.may_be_found result save mid last
        → H.holds first ≡ Some files → H.holds last ≡ Some held
        → H.moment first ≡ Some start → H.may_be_found last start found
        → IsFromStage files (saves ++ save ∷ []) 0 found }

    // the files held after it are at a stage, whether moments are known or not
    ensures held_in_write { (saves : List Save) (save : Save) (result : Result (Unit {0}) WriteFault)
        (first mid last : H) (files held : Files)
        → Saves H.holds H.moment H.may_be_found saves first mid
        → Writes H.holds H.moment H.may_be_found result save mid last
        → H.holds first ≡ Some files → H.holds last ≡ Some held
        → IsFromStage files (saves ++ save ∷ []) (length saves) held }

    // a stage of some writes is one of these and further ones
    ensures more { (files : Files) (saves more : List Save) (least : ℕ) (found : Files)
        → IsFromStage files saves least found → IsFromStage files (saves ++ more) least found }

    // A stage of the writes that follow others is a later stage of all. So after a write with Ok no earlier stage is
    // found.
    ensures later { (files : Files) (saves more : List Save) (found : Files)
        → IsFromStage (files_saved files saves) more 0 found
        → IsFromStage files (saves ++ more) (length saves) found }
{}
