//! The fields of pairs.
use ext_field::PairField;
use std::alloc::Global;
use std::test::Fail;
use word_field::Field;
use worked_rows::rows::{ensure, judge, number, part};

/// The numbers of the products of an element, given by its number, by those of the numbers 0, 1 and so on.
fn products<F: Field>(alloc: Global, f: &F, a: u64) -> Result<String, Fail> {
    let mut products = String::new(alloc);
    for b in 0..f.size() {
        let product = f.mul(f.from_word(a), f.from_word(b as u64));
        if !products.is_empty() {
            products.push_str(" ")?;
        }
        let number = f.to_word(product);
        products.push_str(format!(in alloc; "{number}")?.as_str())?;
    }
    Ok(products)
}

/// Judges rows of products, each with the size and the number of the first factor.
fn judge_products(alloc: Global, rows: &[&str]) -> Result<(), Fail> {
    for row in rows {
        let f = PairField::new(number(part(row, 0))?).ok_or("a size of pairs")?;
        let a = number(part(row, 1))? as u64;
        judge(row, products(alloc, &f, a)?.as_str())?;
    }
    Ok(())
}

#[test]
fn products_of_four_elements(rt: HostRuntime) -> Result<(), Fail> {
    let rows = [
        "4 | 0 | 0 0 0 0",
        "4 | 1 | 0 1 2 3",
        "4 | 2 | 0 2 3 1",
        "4 | 3 | 0 3 1 2",
    ];
    judge_products(rt.alloc(), &rows)
}

#[test]
fn products_of_nine_elements(rt: HostRuntime) -> Result<(), Fail> {
    let rows = [
        "9 | 0 | 0 0 0 0 0 0 0 0 0",
        "9 | 1 | 0 1 2 3 4 5 6 7 8",
        "9 | 2 | 0 2 1 6 8 7 3 5 4",
        "9 | 3 | 0 3 6 2 5 8 1 4 7",
        "9 | 4 | 0 4 8 5 6 1 7 2 3",
        "9 | 5 | 0 5 7 8 1 3 4 6 2",
        "9 | 6 | 0 6 3 1 7 4 2 8 5",
        "9 | 7 | 0 7 5 4 2 6 8 3 1",
        "9 | 8 | 0 8 4 7 3 2 5 1 6",
    ];
    judge_products(rt.alloc(), &rows)
}

/// The size, and the numbers of an element, of its negative, its inverse and its square.
fn numbers_of<F: Field>(alloc: Global, f: &F, a: u64) -> Result<String, Fail> {
    let element = f.from_word(a);
    let Some(inverse) = f.inv(element) else {
        return Ok(format!(in alloc; "no inverse")?);
    };
    let negative = f.neg(element);
    ensure(f.add(element, negative) == f.zero(), "no negative")?;
    ensure(f.sub(f.zero(), element) == negative, "another negative")?;
    ensure(f.mul(element, inverse) == f.one(), "another inverse")?;
    let square = f.to_word(f.mul(element, element));
    let (size, number) = (f.size(), f.to_word(element));
    let (negative, inverse) = (f.to_word(negative), f.to_word(inverse));
    Ok(format!(in alloc; "{size} {number} {negative} {inverse} {square}")?)
}

fn answer(alloc: Global, row: &str) -> Result<String, Fail> {
    match PairField::new(number(part(row, 0))?) {
        Some(f) => numbers_of(alloc, &f, part(row, 1).parse::<u64>()?),
        None => Ok(format!(in alloc; "none")?),
    }
}

#[test]
fn fields_of_pairs(rt: HostRuntime) -> Result<(), Fail> {
    for row in [
        "4 | 2 | 4 2 2 3 3",
        "4 | 7 | 4 3 3 2 2",
        "4 | 8 | no inverse",
        "9 | 5 | 9 5 7 4 3",
        "9 | 18446744073709551615 | 9 6 3 3 2",
        "49 | 7 | 49 7 42 42 6",
        "49 | 66 | 49 17 39 18 40",
        "49 | 3 | 49 3 4 5 2",
        "49 | 49 | no inverse",
        "25 | 7 | none",
        "7 | 1 | none",
        "48 | 1 | none",
        "121 | 1 | none",
        "4294967295 | 1 | none",
    ] {
        judge(row, answer(rt.alloc(), row)?.as_str())?;
    }
    Ok(())
}
