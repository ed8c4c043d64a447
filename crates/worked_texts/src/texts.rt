//! Texts of presentations and of queries.
ghost use Rattle.std.specs.Prelude.{All};
ghost use Rattle.worked_rows.specs.Rings.{IsIn, IsRing};

use monomial_order::Memory;
use poly_core::Poly;
use presentation_text::laws::read_written;
use presentation_text::{AnyPresentation, TEXT_MAX, read, read_any, read_polys, write};
use std::alloc::Global;
use std::test::Fail;
use word_field::WordField;
use worked_rows::rings::{Ring, X_AND_Y, ring, text_of};
use worked_rows::rows::{ensure, judge, number, part};

/// Sees that the canonical text of a presentation is the expected one.
fn see_written(alloc: Global, p: &Ring, expected: &str) -> Result<(), Fail>
    requires { IsRing p.now }
{
    ensure(
        write(alloc, p)?.as_slice() == expected.as_bytes(),
        "another canonical text",
    )
}

/// Sees that a text and its copy have the expected canonical text, and that this is read again.
fn see_text(alloc: Global, text: &str, expected: &str) -> Result<(), Fail> {
    let p = ring(alloc, text)?;
    see_written(alloc, &p, expected)?;
    see_written(alloc, &p.copy(alloc)?, expected)?;
    let again = read_written(alloc, &p)?.ok_or("a short text")?;
    let is_same = again.field.modulus == p.field.modulus
        && again.order.weights() == p.order.weights()
        && again.order.rows().len() == p.order.rows().len()
        && again.ideal.len() == p.ideal.len()
        && again.generators.len() == p.generators.len();
    ensure(is_same, "another presentation")
}

#[test]
fn writes_canonical_texts(rt: HostRuntime) -> Result<(), Fail> {
    for (text, canonical) in [
        (
            "subalgebra 1\nfield 101\nvars x y\nweights 1 1\norder lex\nideal 1\nx^2 - y^2\ngenerators 1\n\
             y + x\nend",
            "subalgebra 1\nfield 101\nvars x y\nweights 1 1\norder lex\nideal 1\nx^2 + 100*y^2\ngenerators 1\n\
             x + y\nend\n",
        ),
        (
            "# two rows\n subalgebra\t1\nfield 007\n\nvars a  b_2\r\nweights 02 3\norder 0 1 ; 10 0 ; revlex\n\
             ideal 00\ngenerators 2\n8*a^3*b_2^0 - 6*b_2*b_2\na - a\n # end\nend\n",
            "subalgebra 1\nfield 7\nvars a b_2\nweights 2 3\norder 0 1 ; 10 0 ; revlex\nideal 0\ngenerators 2\n\
             b_2^2 + a^3\n0\nend\n",
        ),
        (
            "subalgebra 1\nfield 2\nvars x y\nweights 1 1\norder revlex\nideal 1\n0\ngenerators 1\ny*y - x*x\n\
             end\n",
            "subalgebra 1\nfield 2\nvars x y\nweights 1 1\norder revlex\nideal 1\n0\ngenerators 1\nx^2 + y^2\n\
             end\n",
        ),
        (
            "subalgebra 1\nfield 65521\nvars x\nweights 64\norder lex\nideal 0\ngenerators 0\nend\n",
            "subalgebra 1\nfield 65521\nvars x\nweights 64\norder lex\nideal 0\ngenerators 0\nend\n",
        ),
        (
            "# a circle\nsubalgebra 1\nfield 101\nvars x y\nweights 1 1\norder 0 1 ; lex\nideal 1\nx^2 - y^2\n\
             generators 2\ny + x\n0\nend",
            "subalgebra 1\nfield 101\nvars x y\nweights 1 1\norder 0 1 ; lex\nideal 1\n100*y^2 + x^2\n\
             generators 2\ny + x\n0\nend\n",
        ),
        (
            "subalgebra 1\nfield 101\nvars x y\nweights 1 1\norder lex\nideal 0\ngenerators 2\nx + y\nx*y\nend\n",
            "subalgebra 1\nfield 101\nvars x y\nweights 1 1\norder lex\nideal 0\ngenerators 2\nx + y\nx*y\nend\n",
        ),
        (
            "# a comment\r\n\n\tsubalgebra  1 \r\nfield 0007\nvars x_1 y\nweights 1 002\n\
             order 1 0 ; 3 1000 ; revlex\n  # more\nideal 1\nx_1^2 - 3*y\ngenerators 1\n8*y\nend\n \t\n#",
            "subalgebra 1\nfield 7\nvars x_1 y\nweights 1 2\norder 1 0 ; 3 1000 ; revlex\nideal 1\nx_1^2 + 4*y\n\
             generators 1\ny\nend\n",
        ),
    ] {
        see_text(rt.alloc(), text, canonical)?;
    }
    Ok(())
}

const LINES: [&str; 10] = [
    "subalgebra 1",
    "field 101",
    "vars x y",
    "weights 1 1",
    "order lex",
    "ideal 0",
    "generators 2",
    "x + y",
    "x*y",
    "end",
];

/// The text with another line in place of one, counted from 1.
fn changed(alloc: Global, line: u32, text: &str) -> Result<String, Memory> {
    let mut changed = String::new(alloc);
    let mut number: u32 = 0;
    for old in LINES {
        number = number.saturating_add(1);
        changed.push_str(if number == line { text } else { old })?;
        changed.push_str("\n")?;
    }
    Ok(changed)
}

/// The fault of a text.
fn fault_of(alloc: Global, text: &str) -> Result<String, Fail> {
    ensure(text.len() as u64 <= TEXT_MAX, "a long text")?;
    match read(alloc, text.as_bytes()) {
        Ok(_) => Ok(format!(in alloc; "no fault")?),
        Err(fault) => Ok(format!(in alloc; "{fault}")?),
    }
}

/// A text with a field of that size and one generator.
fn field_text(alloc: Global, size: &str, generator: &str) -> Result<String, Fail> {
    Ok(format!(in alloc;
        "subalgebra 1\nfield {size}\nvars x y\nweights 1 1\norder lex\nideal 0\n\
             generators 1\n{generator}\nend\n"
    )?)
}

/// A size and a generator are read over a field of either kind: the canonical text has the next two parts, or
/// there is a fault.
fn see_field(alloc: Global, row: &str) -> Result<(), Fail> {
    let text = field_text(alloc, part(row, 0), part(row, 1))?;
    let expected = field_text(alloc, part(row, 2), part(row, 3))?;
    ensure(text.len() as u64 <= TEXT_MAX, "a long text")?;
    let written = match read_any(alloc, text.as_bytes()) {
        Ok(AnyPresentation::Word(p)) => write(alloc, &p)?,
        Ok(AnyPresentation::Pair(p)) => write(alloc, &p)?,
        Err(fault) => return judge(row, format!(in alloc; "{fault}")?.as_str()),
    };
    ensure(written.as_slice() == expected.as_bytes(), row)
}

#[test]
fn reads_fields_of_either_kind(rt: HostRuntime) -> Result<(), Fail> {
    for row in [
        "4 | 7*x - 2*y | 4 | 3*x + 2*y",
        "009 | 3*3*x - 4*y | 9 | 2*x + 8*y",
        "49 | 7*7*x + 50*y | 49 | 6*x + y",
        "0101 | 102*x - y | 101 | x + 100*y",
        "25 | x | line 2: FieldUnknown",
        "9 | x + z | line 8: UnknownName",
        "4 | x + 2 | line 8: NotHomogeneous",
        "49 | 48 | line 8: ConstantGenerator",
    ] {
        see_field(rt.alloc(), row)?;
    }
    Ok(())
}

#[test]
fn finds_the_first_fault(rt: HostRuntime) -> Result<(), Fail> {
    for row in [
        "1 | subalgebra 2 | line 1: Header",
        "1 | # subalgebra 1 | line 2: Header",
        "2 | field 9 | line 2: FieldUnknown",
        "2 | field 4294967297 | line 2: FieldUnknown",
        "3 | vars x 2 | line 3: VarsLine",
        "3 | vars x abcdefghijklmnopq | line 3: VarsLine",
        "3 | vars x x 2 | line 3: VarsLine",
        "3 | vars x x | line 3: DuplicateName",
        "4 | weights 1 | line 4: WeightsLine",
        "4 | weights 1 65 | line 4: WeightsLine",
        "4 | weights 1 1 1 | line 4: WeightsLine",
        "5 | order grevlex | line 5: OrderLine",
        "5 | order 1 1 lex | line 5: OrderLine",
        "5 | order 1 1 ; 1 1 ; 1 1 ; 1 1 ; 1 1 ; lex | line 5: OrderLine",
        "6 | ideal 257 | line 6: CountLine",
        "7 | generators 257 | line 7: CountLine",
        "7 | generators 1 | line 9: CountLine",
        "7 | generators 3 | line 10: UnknownName",
        "8 | x y | line 8: PolySyntax",
        "8 | x + w | line 8: UnknownName",
        "8 | 1234567890123456789*x | line 8: NumberTooLong",
        "8 | x^30000*y | line 8: DegreeTooLarge",
        "8 | x + y^2 | line 8: NotHomogeneous",
        "8 | x + 1 | line 8: NotHomogeneous",
        "8 | 5 | line 8: ConstantGenerator",
        "6 | ideal 1\n3 - x + x | line 7: UnitIdeal",
        "10 | ends | line 10: CountLine",
        "10 | # end | line 11: Truncated",
        "10 | end\n\nend | line 12: TextAfterEnd",
    ] {
        let text = changed(rt.alloc(), number(part(row, 0))?, part(row, 1))?;
        judge(row, fault_of(rt.alloc(), text.as_str())?.as_str())?;
    }
    Ok(())
}

#[test]
fn finds_a_missing_end(rt: HostRuntime) -> Result<(), Fail> {
    let mut text = changed(rt.alloc(), 10, "")?;
    text.pop();
    judge(
        "no line 10 | line 10: Truncated",
        fault_of(rt.alloc(), text.as_str())?.as_str(),
    )
}

/// Compares the canonical text with the line of the row in place of the changed one, and gives the degrees of the
/// letters of the generators.
fn generator_degrees(alloc: Global, row: &str) -> Result<String, Fail> {
    let text = changed(alloc, number(part(row, 0))?, part(row, 1))?;
    let expected = changed(alloc, 8, part(row, 2))?;
    let p = ring(alloc, text.as_str())?;
    see_written(alloc, &p, expected.as_str())?;
    let degrees = p.gen_order.s_degrees.as_slice();
    Ok(format!(in alloc; "{degrees:?}")?)
}

#[test]
fn reads_generators(rt: HostRuntime) -> Result<(), Fail> {
    for row in [
        "8 | x + y | x + y | [1, 2]",
        "8 | 101 | 0 | [1, 2]",
        "8 | 2*x - x + y - 0 | x + y | [1, 2]",
        "8 | -x^2*y + 3*y*x*0*y + 5 + y^3 - 5 | 100*x^2*y + y^3 | [3, 2]",
    ] {
        judge(row, generator_degrees(rt.alloc(), row)?.as_str())?;
    }
    Ok(())
}

/// The canonical texts of polynomials, each with a comma after it.
fn list_text(alloc: Global, p: &Ring, list: &[Poly<WordField>]) -> Result<String, Fail>
    requires valid { IsRing p.now }
    requires canonical { All (IsIn p.now) list.now }
{
    let mut text = String::new(alloc);
    for a in list {
        text.push_str(text_of(alloc, p, a)?.as_str())?;
        text.push(',')?;
    }
    Ok(text)
}

/// The queries of a text, or its fault.
fn queries(alloc: Global, p: &Ring, text: &str) -> Result<String, Fail>
    requires { IsRing p.now }
{
    ensure(text.len() as u64 <= TEXT_MAX, "a long text")?;
    match read_polys(alloc, p, text.as_bytes()) {
        Ok(list) => list_text(alloc, p, list.as_slice()),
        Err(fault) => Ok(format!(in alloc; "{fault}")?),
    }
}

#[test]
fn queries_and_their_faults(rt: HostRuntime) -> Result<(), Fail> {
    let alloc = rt.alloc();
    let p = ring(alloc, X_AND_Y)?;
    for row in [
        "# queries\nx*y - 1\n\n 3 \n0 | x*y + 100,3,0,",
        " | ",
        "x y | line 1: PolySyntax",
        "x\n#\n\nx + w\nx y | line 4: UnknownName",
        "1234567890123456789 | line 1: NumberTooLong",
        "x\nx^30001 | line 2: DegreeTooLarge",
        "x + | line 1: PolySyntax",
    ] {
        judge(row, queries(alloc, &p, part(row, 0))?.as_str())?;
    }
    Ok(())
}
