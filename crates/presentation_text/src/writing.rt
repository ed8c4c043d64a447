//! Writing presentations.
ghost use Rattle.std.specs.Prelude.{◌≡◌, ◌++◌, [], ◌∷◌, map, length, flat_map, All, IfOk, OnOk, codes};
ghost use Rattle.std.specs.Fmt.{decimal};
ghost use Rattle.poly_core.specs.Presentation.{IsValid, weight_order_of};
ghost use Rattle.poly_core.specs.Text.{poly_text};
ghost use Rattle.presentation_text.specs.Meaning.{IsTextOf};
ghost use Rattle.presentation_text.specs.PresentationText.{line, lines_of, list_text, row_tokens, tie_token, HasText};

use itoa::Buffer;
use monomial_order::{Memory, Row, Tie, WeightOrder};
use poly_core::{NameTable, Names, Poly, Presentation};
use std::alloc::Global;
use word_field::Field;

fn push_bytes(out: &mut Vec<u8>, bytes: &[u8]) -> Result<(), Memory>
    ensures { OnOk result (out.new.items ≡ out.old.items ++ bytes.now) }
{
    out.extend_from_slice(bytes)?;
    Ok(())
}

/// A space and a token.
fn push_token(out: &mut Vec<u8>, token: &[u8]) -> Result<(), Memory>
    ensures { OnOk result (out.new.items ≡ out.old.items ++ (32 ∷ token.now)) }
{
    push_bytes(out, b" ")?;
    push_bytes(out, token)
}

/// A space and a number.
fn push_number(out: &mut Vec<u8>, n: u64) -> Result<(), Memory>
    ensures { OnOk result (out.new.items ≡ out.old.items ++ (32 ∷ decimal n)) }
{
    let mut digits = Buffer::new();
    push_token(out, digits.format(n).as_bytes())
}

fn push_numbers(out: &mut Vec<u8>, numbers: &[u32]) -> Result<(), Memory>
    ensures { OnOk result (out.new.items ≡ out.old.items ++ flat_map (λ w. 32 ∷ w) (map decimal numbers.now)) }
{
    for n in numbers {
        push_number(out, *n as u64)?;
    }
    Ok(())
}

fn push_names(out: &mut Vec<u8>, table: &NameTable) -> Result<(), Memory>
    ensures { OnOk result (out.new.items ≡ out.old.items ++ flat_map (λ w. 32 ∷ w) table.now) }
{
    for i in 0..table.len() {
        push_token(out, table.name(i).as_bytes())?;
    }
    Ok(())
}

/// A row, with a `;` behind it.
fn push_row(out: &mut Vec<u8>, row: &Row) -> Result<(), Memory>
    ensures { OnOk result (out.new.items ≡ out.old.items ++ flat_map (λ w. 32 ∷ w) (row_tokens row.now)) }
{
    push_numbers(out, row.entries())?;
    push_bytes(out, b" ;")
}

fn push_rows(out: &mut Vec<u8>, rows: &[Row]) -> Result<(), Memory>
    ensures { OnOk result (out.new.items ≡ out.old.items ++ flat_map (λ w. 32 ∷ w) (flat_map row_tokens rows.now)) }
{
    for row in rows {
        push_row(out, row)?;
    }
    Ok(())
}

fn push_tie(out: &mut Vec<u8>, tie: Tie) -> Result<(), Memory>
    ensures { OnOk result (out.new.items ≡ out.old.items ++ (32 ∷ tie_token tie)) }
{
    match tie {
        Tie::Lex => push_bytes(out, b" lex"),
        Tie::RevLex => push_bytes(out, b" revlex"),
    }
}

/// A line with a token and a number.
fn push_count(out: &mut Vec<u8>, key: &[u8], n: u64) -> Result<(), Memory>
    ensures { OnOk result (out.new.items ≡ out.old.items ++ line key.now (decimal n ∷ [])) }
{
    push_bytes(out, key)?;
    push_number(out, n)?;
    push_bytes(out, b"\n")
}

fn push_vars(out: &mut Vec<u8>, table: &NameTable) -> Result<(), Memory>
    ensures { OnOk result (out.new.items ≡ out.old.items ++ line (codes "vars") table.now) }
{
    push_bytes(out, b"vars")?;
    push_names(out, table)?;
    push_bytes(out, b"\n")
}

fn push_weights(out: &mut Vec<u8>, weights: &[u32]) -> Result<(), Memory>
    ensures { OnOk result (out.new.items ≡ out.old.items ++ line (codes "weights") (map decimal weights.now)) }
{
    push_bytes(out, b"weights")?;
    push_numbers(out, weights)?;
    push_bytes(out, b"\n")
}

fn push_order(out: &mut Vec<u8>, rows: &[Row], tie: Tie) -> Result<(), Memory>
    ensures { OnOk result
        (out.new.items ≡ out.old.items ++ line (codes "order") (flat_map row_tokens rows.now ++ (tie_token tie ∷ []))) }
{
    push_bytes(out, b"order")?;
    push_rows(out, rows)?;
    push_tie(out, tie)?;
    push_bytes(out, b"\n")
}

/// A line with a polynomial.
fn push_poly<F: Field>(
    alloc: Global,
    out: &mut Vec<u8>,
    f: &F,
    names: &Names,
    p: &Poly<F>,
) -> Result<(), Memory>
    requires { HasText (F.ops f.now) names.now p.now }
    ensures { OnOk result (out.new.items ≡ out.old.items ++ line (poly_text (F.ops f.now) names.now p.now) []) }
{
    let text = Poly::write(alloc, f, p, names)?;
    push_bytes(out, &text)?;
    push_bytes(out, b"\n")
}

/// The polynomials, a line each.
fn push_polys<F: Field>(
    alloc: Global,
    out: &mut Vec<u8>,
    f: &F,
    names: &Names,
    polys: &[Poly<F>],
) -> Result<(), Memory>
    requires { All (HasText (F.ops f.now) names.now) polys.now }
    ensures { OnOk result (out.new.items ≡ out.old.items ++ lines_of (F.ops f.now) names.now polys.now) }
{
    for p in polys {
        push_poly(alloc, out, f, names, p)?;
    }
    Ok(())
}

/// A line with the number of the polynomials, and the polynomials.
fn push_list<F: Field>(
    alloc: Global,
    out: &mut Vec<u8>,
    p: &Presentation<F, WeightOrder>,
    key: &[u8],
    polys: &[Poly<F>],
) -> Result<(), Memory>
    requires { All (HasText (F.ops p.now.field) p.now.names) polys.now }
    ensures { OnOk result
        (out.new.items ≡ out.old.items ++ list_text (F.ops p.now.field) p.now.names key.now polys.now) }
{
    push_count(out, key, polys.len() as u64)?;
    push_polys(alloc, out, &p.field, &p.names, polys)
}

/// The canonical text of a presentation.
pub fn write<F: Field>(alloc: Global, p: &Presentation<F, WeightOrder>) -> Result<Vec<u8>, Memory>
    requires { IsValid F.ops weight_order_of p.now }
    ensures { IfOk result (λ text. IsTextOf F.ops p.now text.items) }
{
    let Names::Listed(table) = &p.names else {
        unreachable!()
    };
    let mut out = Vec::new(alloc);
    push_bytes(&mut out, b"subalgebra 1\n")?;
    push_count(&mut out, b"field", p.field.size() as u64)?;
    push_vars(&mut out, table)?;
    push_weights(&mut out, p.order.weights())?;
    push_order(&mut out, p.order.rows(), p.order.tie())?;
    push_list(alloc, &mut out, p, b"ideal", &p.ideal)?;
    push_list(alloc, &mut out, p, b"generators", &p.generators)?;
    push_bytes(&mut out, b"end\n")?;
    Ok(out)
}
