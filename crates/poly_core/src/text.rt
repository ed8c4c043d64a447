//! The canonical text of words and polynomials.
ghost use Rattle.std.specs.Prelude.{◌≡◌, ℕ, List, ◌+◌, ◌-◌, ◌^◌, ◌<◌, ◌≤◌, [], ◌∷◌, ◌++◌, length, IsSome, IfOk, OnOk};
ghost use Rattle.std.specs.Fmt.{decimal};
ghost use Rattle.poly_core.specs.Names.{name_at, name_of, IsNamed};
ghost use Rattle.word_field.specs.Field.{IsValue};
ghost use Rattle.poly_core.specs.Text.{factor_text, factors_text, monomial_text, term_text, poly_text, AreValues, AreNamed};

use crate::{Names, Poly};
use itoa::Buffer;
use monomial_order::{Memory, Monomial, Term};
use std::alloc::Global;
use word_field::Field;

fn push_byte(out: &mut Vec<u8>, byte: u8) -> Result<(), Memory>
    ensures { OnOk result (out.new.items ≡ out.old.items ++ (byte ∷ [])) }
{
    out.push(byte)?;
    Ok(())
}

fn push_bytes(out: &mut Vec<u8>, bytes: &[u8]) -> Result<(), Memory>
    ensures { OnOk result (out.new.items ≡ out.old.items ++ bytes.now) }
{
    out.extend_from_slice(bytes)?;
    Ok(())
}

fn push_decimal(out: &mut Vec<u8>, n: u64) -> Result<(), Memory>
    ensures { OnOk result (out.new.items ≡ out.old.items ++ decimal n) }
{
    let mut digits = Buffer::new();
    push_bytes(out, digits.format(n).as_bytes())
}

/// A letter and a number.
fn push_numbered(out: &mut Vec<u8>, letter: u8, n: u64) -> Result<(), Memory>
    ensures { OnOk result (out.new.items ≡ out.old.items ++ (letter ∷ decimal n)) }
{
    push_byte(out, letter)?;
    push_decimal(out, n)
}

fn push_name(out: &mut Vec<u8>, names: &Names, i: usize) -> Result<(), Memory>
    requires named { IsSome (name_at names.now i) }
    requires small { i < 2 ^ 63 }
    ensures { OnOk result (out.new.items ≡ out.old.items ++ name_of names.now i) }
{
    match names {
        Names::Listed(table) => push_bytes(out, table.name(i).as_bytes()),
        Names::Numbered { prefix, skip } => push_numbered(out, *prefix, (i + 1 - *skip) as u64),
        Names::Paired {
            first,
            count,
            second,
        } => {
            if i < *count {
                push_numbered(out, *first, i as u64 + 1)
            } else {
                push_numbered(out, *second, (i + 1 - *count) as u64)
            }
        }
    }
}

fn push_factor(out: &mut Vec<u8>, names: &Names, i: usize, e: u16) -> Result<(), Memory>
    requires named { IsSome (name_at names.now i) }
    requires small { i < 2 ^ 63 }
    ensures { OnOk result (out.new.items ≡ out.old.items ++ factor_text (name_of names.now i) e) }
{
    push_name(out, names, i)?;
    if e != 1 {
        push_byte(out, b'^')?;
        push_decimal(out, e as u64)?;
    }
    Ok(())
}

fn push_monomial(out: &mut Vec<u8>, names: &Names, m: &[u16]) -> Result<(), Memory>
    requires { IsNamed names.now m.now }
    ensures { OnOk result (out.new.items ≡ out.old.items ++ factors_text names.now m.now) }
{
    let mut first = true;
    for (i, e) in m.iter().enumerate() {
        if *e != 0 {
            if !first {
                push_byte(out, b'*')?;
            }
            push_factor(out, names, i, *e)?;
            first = false;
        }
    }
    Ok(())
}

fn push_term<F: Field>(
    out: &mut Vec<u8>,
    f: &F,
    t: &Term<F::Elem>,
    names: &Names,
) -> Result<(), Memory>
    requires value { IsValue (F.ops f.now) t.now.by }
    requires named { IsNamed names.now t.now.at }
    ensures { OnOk result (out.new.items ≡ out.old.items ++ term_text (F.ops f.now) names.now t.now) }
{
    let coefficient = f.to_word(t.by);
    let places = t.at.as_slice();
    if places.is_empty() {
        return push_decimal(out, coefficient as u64);
    }
    if coefficient != 1 {
        push_decimal(out, coefficient as u64)?;
        push_byte(out, b'*')?;
    }
    push_monomial(out, names, places)
}

/// The canonical text of a word.
pub fn write_monomial(alloc: Global, m: &Monomial, names: &Names) -> Result<Vec<u8>, Memory>
    requires { IsNamed names.now m.now }
    ensures { IfOk result (λ text. text.items ≡ monomial_text names.now m.now) }
{
    let mut out = Vec::new(alloc);
    if m.places() == 0 {
        push_byte(&mut out, b'1')?;
    } else {
        push_monomial(&mut out, names, m.as_slice())?;
    }
    Ok(out)
}

impl<F: Field> Poly<F> {
    /// The canonical text.
    pub fn write(alloc: Global, f: &F, a: &Poly<F>, names: &Names) -> Result<Vec<u8>, Memory>
        requires values { AreValues (F.ops f.now) a.now }
        requires named { AreNamed names.now a.now }
        ensures { IfOk result (λ text. text.items ≡ poly_text (F.ops f.now) names.now a.now) }
    {
        let mut out = Vec::new(alloc);
        let terms = a.terms();
        if terms.is_empty() {
            push_byte(&mut out, b'0')?;
        }
        for (i, t) in terms.iter().enumerate() {
            if i > 0 {
                push_bytes(&mut out, b" + ")?;
            }
            push_term(&mut out, f, t, names)?;
        }
        Ok(out)
    }
}
