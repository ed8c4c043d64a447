//! Loads and reads the files of a command.
ghost use Rattle.std.specs.Prelude.{◌≡◌, ℕ, ◌≤◌, List, All, IfErr, IfOk, IsErrOf, Some, length};
ghost use Rattle.std.specs.FinMap as map;
ghost use Rattle.poly_core.specs.Presentation.{weight_order_of, IsValid};
ghost use Rattle.polynomials.specs.Polynomial.{IsCanonical};
ghost use Rattle.polynomial_text.specs.Degrees.{IsLow};
ghost use Rattle.presentation_text.specs.Meaning.{text_max};
ghost use Rattle.presentation_text.specs.Reading.{queries as queries_of, reading, AnyReading};
ghost use Rattle.shelf_io.specs.Counts.{HasRisen};
ghost use Rattle.shelf_io.specs.Shelf.{Files};
ghost use Rattle.sagbi_cli.specs.Loading.{stop_by, IsAnyValid, IsLoaded, IsRefused, StopsAs};
ghost use Rattle.sagbi_cli.specs.Outcome.{after_loading};
ghost use Rattle.sagbi_cli.specs.Output.{AreGiven, IsGiven};

use crate::{Input, Outcome, Stop};
use monomial_order::WeightOrder;
use poly_core::{Poly, Presentation};
use presentation_text::{AnyPresentation, TEXT_MAX, TextFault, read_any, read_polys};
use shelf_io::{LoadFault, Loaded, Shelf};
use std::alloc::Global;
use word_field::Field;

/// The bytes of a file.
pub(crate) fn load<H: Shelf>(
    alloc: Global,
    shelf: &mut H,
    name: &str,
    input: Input,
) -> Result<Vec<u8>, Stop>
    ensures loaded { (files : Files) → H.holds shelf.old ≡ Some files →
        IfOk result (λ bytes. IsLoaded (map.get files name.now) bytes.items) }
    ensures refused { (files : Files) → H.holds shelf.old ≡ Some files →
        IfErr result (IsRefused input (map.get files name.now)) }
    ensures short { IfOk result (λ bytes. length bytes.items ≤ text_max) }
    ensures map { H.holds shelf.new ≡ H.holds shelf.old }
    ensures counted { H.faults shelf.old ≤ H.faults shelf.new }
    ensures failed { IsErrOf result Stop.Shelf → HasRisen (H.faults shelf.old) (H.faults shelf.new) }
{
    match shelf.load(alloc, name, Some(TEXT_MAX)) {
        Ok(Loaded::Bytes(bytes)) => Ok(bytes),
        Ok(Loaded::Missing) => Err(Stop::Missing(input)),
        Ok(Loaded::TooLong) => Err(Stop::TooLong(input)),
        Err(LoadFault::Failed) => Err(Stop::Shelf),
        Err(LoadFault::Memory) => Err(Stop::Memory),
    }
}

/// Why a fault of a text stops a command.
fn stop_of(input: Input, fault: TextFault) -> Stop
    ensures { result ≡ stop_by input fault }
{
    match fault {
        TextFault::At { kind, line } => Stop::Fault(input, kind, line),
        TextFault::Memory => Stop::Memory,
    }
}

/// The presentation of a name.
pub(crate) fn presentation<H: Shelf>(
    alloc: Global,
    shelf: &mut H,
    name: &str,
) -> Result<AnyPresentation, Stop>
    ensures given { (files : Files) → H.holds shelf.old ≡ Some files → IfOk result (IsGiven files name.now) }
    ensures refused { (files : Files) → H.holds shelf.old ≡ Some files → IfErr result (λ stop.
        (next : AnyReading → Outcome) →
        StopsAs (after_loading Input.Presentation (map.get files name.now) reading next) stop) }
    ensures valid { IfOk result IsAnyValid }
    ensures map { H.holds shelf.new ≡ H.holds shelf.old }
    ensures counted { H.faults shelf.old ≤ H.faults shelf.new }
    ensures failed { IsErrOf result Stop.Shelf → HasRisen (H.faults shelf.old) (H.faults shelf.new) }
{
    let bytes = load(alloc, shelf, name, Input::Presentation)?;
    match read_any(alloc, bytes.as_slice()) {
        Ok(p) => Ok(p),
        Err(fault) => Err(stop_of(Input::Presentation, fault)),
    }
}

/// The queries of a name, for a presentation.
pub(crate) fn queries<F: Field, H: Shelf>(
    alloc: Global,
    p: &Presentation<F, WeightOrder>,
    shelf: &mut H,
    name: &str,
) -> Result<Vec<Poly<F>>, Stop>
    requires valid { IsValid F.ops weight_order_of p.now }
    ensures given { (files : Files) → H.holds shelf.old ≡ Some files → IfOk result (λ list.
        AreGiven files name.now F.ops p.now list.items) }
    ensures refused { (files : Files) → H.holds shelf.old ≡ Some files → IfErr result (StopsAs
        (after_loading Input.Queries (map.get files name.now)
        (queries_of (F.ops p.now.field) (weight_order_of p.now.order) p.now.names) (λ _. Outcome.Done))) }
    ensures canonical { IfOk result (λ list.
        All (IsCanonical (F.ops p.now.field) (weight_order_of p.now.order)) list.items) }
    ensures low { IfOk result (λ list. All (IsLow (weight_order_of p.now.order)) list.items) }
    ensures map { H.holds shelf.new ≡ H.holds shelf.old }
    ensures counted { H.faults shelf.old ≤ H.faults shelf.new }
    ensures failed { IsErrOf result Stop.Shelf → HasRisen (H.faults shelf.old) (H.faults shelf.new) }
{
    let bytes = load(alloc, shelf, name, Input::Queries)?;
    match read_polys(alloc, p, bytes.as_slice()) {
        Ok(list) => Ok(list),
        Err(fault) => Err(stop_of(Input::Queries, fault)),
    }
}
