//! The fields.
use std::alloc::Global;
use std::test::Fail;
use word_field::{Field, WordField};
use worked_rows::rows::{ensure, judge, number, part};

/// Sees that the greatest number is that of -1, which is its own inverse.
fn ends_at_minus_one<F: Field>(f: &F) -> bool {
    let top = f.neg(f.one());
    f.to_word(top) as u64 + 1 == f.size() as u64
        && f.from_word(f.to_word(top) as u64) == top
        && f.add(top, f.one()) == f.zero()
        && f.sub(f.zero(), f.one()) == top
        && f.mul(top, top) == f.one()
        && f.inv(top) == Some(top)
        && f.inv(f.zero()).is_none()
}

/// The size, the element of a number and the inverse of that, if the size is a listed one.
fn answer(alloc: Global, row: &str) -> Result<String, Fail> {
    let Some(f) = WordField::new(number(part(row, 0))?) else {
        return Ok(format!(in alloc; "none")?);
    };
    ensure(ends_at_minus_one(&f), "-1 is not the last element")?;
    let element = f.from_word(part(row, 1).parse::<u64>()?);
    let size = f.size();
    let inverse = f.inv(element);
    Ok(format!(in alloc; "{size} {element} {inverse:?}")?)
}

#[test]
fn fields_of_each_size(rt: HostRuntime) -> Result<(), Fail> {
    for row in [
        "2 | 3 | 2 1 Some(1)",
        "3 | 5 | 3 2 Some(2)",
        "5 | 8 | 5 3 Some(2)",
        "7 | 3 | 7 3 Some(5)",
        "7 | 16 | 7 2 Some(4)",
        "101 | 2 | 101 2 Some(51)",
        "32003 | 32005 | 32003 2 Some(16002)",
        "65521 | 2 | 65521 2 Some(32761)",
        "65521 | 18446744073709551615 | 65521 50624 Some(64505)",
        "0 | 0 | none",
        "1 | 0 | none",
        "4 | 0 | none",
        "6 | 0 | none",
        "9 | 0 | none",
        "49 | 0 | none",
        "100 | 0 | none",
        "65519 | 0 | none",
        "65536 | 0 | none",
    ] {
        judge(row, answer(rt.alloc(), row)?.as_str())?;
    }
    Ok(())
}
