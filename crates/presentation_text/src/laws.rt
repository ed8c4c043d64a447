//! Laws of texts and of what they present: contracts of calls that do nothing, and of one that reads what it writes.
ghost use Rattle.std.specs.Prelude.{◌≡◌, ◌<◌, ◌⊎◌, ℕ, List, length, None, Ok, Err, IfSome, IfOk};
ghost use Rattle.word_field.specs.Residues.{residues, is_listed};
ghost use Rattle.ext_field.specs.PairField.{pairs_of, is_pair_size};
ghost use Rattle.poly_core.specs.Presentation.{IsValid, IsSame, weight_order_of};
ghost use Rattle.presentation_text.specs.FieldLines.{HasFieldLine};
ghost use Rattle.presentation_text.specs.Kinds.{Fault};
ghost use Rattle.presentation_text.specs.Presenting.{IsPresented, IsFromReading};
ghost use Rattle.presentation_text.specs.Reading.{Reading, reading, reading_with};
ghost use Rattle.presentation_text.specs.Reading.AnyReading.{word, pair};
ghost use Rattle.presentation_text.specs.Meaning.{text_max, word_ops, pair_ops, IsRead, IsPairRead, IsTextOf};

use crate::TEXT_MAX;
use crate::reading::read;
use crate::text_fault::TextFault;
use crate::text_kind::TextKind;
use crate::writing::write;
use ext_field::{Pair, PairField};
use monomial_order::{Memory, WeightOrder};
use poly_core::Presentation;
use std::alloc::Global;
use word_field::WordField;

/// The canonical text of a presentation presents it.
pub fn text_is_read()
    ensures words { (p : Presentation WordField WeightOrder ℕ) (text : List ℕ) →
        IsValid word_ops weight_order_of p → IsTextOf word_ops p text → IsRead text p }
    ensures pairs { (p : Presentation PairField WeightOrder Pair) (text : List ℕ) →
        IsValid pair_ops weight_order_of p → IsTextOf pair_ops p text → IsPairRead text p }
{}

/// A text presents one presentation at most.
pub fn one_reading()
    ensures words { (p q : Presentation WordField WeightOrder ℕ) (text : List ℕ) →
        IsRead text p → IsRead text q → IsSame p q }
    ensures pairs { (p q : Presentation PairField WeightOrder Pair) (text : List ℕ) →
        IsPairRead text p → IsPairRead text q → IsSame p q }
{}

/// A text that presents something has no fault.
pub fn one_outcome()
    ensures words { (p : Presentation WordField WeightOrder ℕ) (text : List ℕ) (fault : Fault) →
        IsRead text p → reading text ≡ Err fault → ⊥ }
    ensures pairs { (p : Presentation PairField WeightOrder Pair) (text : List ℕ) (fault : Fault) →
        IsPairRead text p → reading text ≡ Err fault → ⊥ }
{}

/// What a text is read as is a presentation.
pub fn reading_is_presented()
    ensures words { (text : List ℕ) (r : Reading ℕ) →
        reading text ≡ Ok (word r) → IsPresented (residues r.head.size) r }
    ensures pairs { (text : List ℕ) (r : Reading Pair) →
        reading text ≡ Ok (pair r) → IsPresented (pairs_of r.head.size) r }
{}

/// Each presentation that is made of a reading is valid, and the text presents it.
pub fn reading_is_valid()
    ensures words { (text : List ℕ) (r : Reading ℕ) (p : Presentation WordField WeightOrder ℕ) →
        reading text ≡ Ok (word r) → IsFromReading word_ops r p → IsRead text p }
    ensures pairs { (text : List ℕ) (r : Reading Pair) (p : Presentation PairField WeightOrder Pair) →
        reading text ≡ Ok (pair r) → IsFromReading pair_ops r p → IsPairRead text p }
{}

/// What is read of the canonical text of a presentation is that presentation.
pub fn read_back()
    ensures words { (p q : Presentation WordField WeightOrder ℕ) (text : List ℕ) →
        IsValid word_ops weight_order_of p → IsTextOf word_ops p text → IsRead text q → IsSame p q }
    ensures pairs { (p q : Presentation PairField WeightOrder Pair) (text : List ℕ) →
        IsValid pair_ops weight_order_of p → IsTextOf pair_ops p text → IsPairRead text q → IsSame p q }
{}

/// The canonical text of a presentation has no fault.
pub fn text_has_no_fault()
    ensures words { (p : Presentation WordField WeightOrder ℕ) (text : List ℕ) (fault : Fault) →
        IsValid word_ops weight_order_of p → IsTextOf word_ops p text → reading text ≡ Err fault → ⊥ }
    ensures pairs { (p : Presentation PairField WeightOrder Pair) (text : List ℕ) (fault : Fault) →
        IsValid pair_ops weight_order_of p → IsTextOf pair_ops p text → reading text ≡ Err fault → ⊥ }
{}

/// Presentations with the same canonical text are the same.
pub fn one_text()
    ensures words { (p q : Presentation WordField WeightOrder ℕ) (text : List ℕ) →
        IsValid word_ops weight_order_of p → IsValid word_ops weight_order_of q →
        IsTextOf word_ops p text → IsTextOf word_ops q text → IsSame p q }
    ensures pairs { (p q : Presentation PairField WeightOrder Pair) (text : List ℕ) →
        IsValid pair_ops weight_order_of p → IsValid pair_ops weight_order_of q →
        IsTextOf pair_ops p text → IsTextOf pair_ops q text → IsSame p q }
{}

/// A text has one reading whether all sizes of fields are known or the primes alone, unless its field has pairs.
pub fn prime_readings()
    ensures { (text : List ℕ) → (reading_with is_listed text ≡ reading text)
        ⊎ ((line : ℕ) × HasFieldLine is_pair_size text line
        × (reading_with is_listed text ≡ Err (TextKind.FieldUnknown, line))) }
{}

/// What is read of what is written: the presentation itself, or None if its text is too long to be read.
pub fn read_written(
    alloc: Global,
    p: &Presentation<WordField, WeightOrder>,
) -> Result<Option<Presentation<WordField, WeightOrder>>, Memory>
    requires { IsValid word_ops weight_order_of p.now }
    ensures same { IfOk result (λ r. IfSome r (IsSame p.now)) }
    ensures none { result ≡ Ok None →
        (text : List ℕ) → IsTextOf word_ops p.now text → text_max < length text }
{
    let text = write(alloc, p)?;
    if text.len() as u64 > TEXT_MAX {
        return Ok(None);
    }
    match read(alloc, text.as_slice()) {
        Ok(copy) => Ok(Some(copy)),
        Err(TextFault::Memory) => Err(Memory),
        Err(TextFault::At { .. }) => unreachable!(),
    }
}
