//! Tables of rules: x of degree 1, and letters for x^2 and x^3.
ghost use Rattle.std.specs.Prelude.{◌≡◌, ◌≢◌, ◌<◌, ℕ, ◌∷◌, ◌++◌, [], length, take, IfOk, OnOk, Some};
ghost use Rattle.monomial_order.specs.Monomial.{least_common_multiple, IsTrimmed};
ghost use Rattle.word_laws.specs.Words.{word_order_of};
ghost use Rattle.word_rewriting.specs.Samples.{sample_rules, square_and_cube};
ghost use Rattle.word_rules.specs.Rules.{rule_at, IsSmallWord};

use monomial_order::{Monomial, WordOrder};
use std::alloc::Global;
use std::test::Fail;
use word_rules::{Marks, RuleTable};
use worked_rows::monomials::{is_word, word};
use worked_rows::rows::{ensure, number, part};

/// The order of the words in x, s1 and s2.
fn order(alloc: Global) -> Result<WordOrder, Fail>
    ensures x { IfOk result (λ o. o.x_degrees.items ≡ 1 ∷ []) }
    ensures s { IfOk result (λ o. o.s_degrees.items ≡ 2 ∷ (3 ∷ [])) }
{
    let mut order = WordOrder::new(alloc, &[1])?;
    order.push_place(2)?;
    order.push_place(3)?;
    Ok(order)
}

/// The word with these exponents.
fn exact(alloc: Global, exponents: &[u16]) -> Result<Monomial, Fail>
    requires { IsTrimmed exponents.now }
    ensures { IfOk result (λ m. m ≡ exponents.now) }
{
    Ok(Monomial::from_places(alloc, exponents)?)
}

/// Adds the rule from one word to another.
fn push_rule(alloc: Global, table: &mut RuleTable, left: &[u16], right: &[u16]) -> Result<(), Fail>
    requires trimmed { IsTrimmed left.now }
    requires trimmed_right { IsTrimmed right.now }
    requires nonempty { left.now ≢ [] }
    ensures { OnOk result (table.new ≡ table.old ++ record { left = left.now; right = Some right.now } ∷ []) }
{
    let left = exact(alloc, left)?;
    let right = exact(alloc, right)?;
    table.push(alloc, left, Some(right))?;
    Ok(())
}

/// The rules x^2 to s1, x*s1 to s2, x*s2 to s1^2, and s1^3 to s2^2.
fn table(alloc: Global) -> Result<RuleTable, Fail>
    ensures { IfOk result (λ t. t ≡ sample_rules) }
{
    let mut table = RuleTable::new(alloc);
    push_rule(alloc, &mut table, &[2], &[0, 1])?;
    push_rule(alloc, &mut table, &[1, 1], &[0, 0, 1])?;
    push_rule(alloc, &mut table, &[1, 0, 1], &[0, 2])?;
    push_rule(alloc, &mut table, &[0, 3], &[0, 0, 2])?;
    Ok(table)
}

/// Fails unless it is a word in x, s1 and s2 with exponents of at most 7.
fn check_small(m: &Monomial) -> Result<(), Fail>
    ensures { IfOk result (λ _. IsSmallWord (word_order_of square_and_cube) m.now) }
{
    ensure(m.places() <= 3, "a letter too many")?;
    ensure(m.as_slice().iter().all(|e| *e <= 7), "a great exponent")?;
    Ok(())
}

/// The normal form of a word.
fn normal_form(alloc: Global, table: &RuleTable, text: &str) -> Result<Option<Monomial>, Fail>
    requires { table.now ≡ sample_rules }
{
    word_rewriting::sample();
    let order = order(alloc)?;
    let m = word(alloc, 1, text)?;
    check_small(&m)?;
    Ok(table.rewrite(alloc, &order, &m)?)
}

/// The first n of the rules.
fn first_rules(alloc: Global, n: usize) -> Result<RuleTable, Fail>
    ensures { IfOk result (λ t. t ≡ take n sample_rules) }
{
    let mut table = table(alloc)?;
    table.truncate(n);
    Ok(table)
}

/// Whether the least common multiple of two left sides is the word of a text. Fails if it is no small word.
fn multiple_is(
    alloc: Global,
    table: &RuleTable,
    i: usize,
    j: usize,
    text: &str,
) -> Result<bool, Fail>
    requires first { i < length table.now }
    requires second { j < length table.now }
    ensures small { IfOk result (λ _. IsSmallWord (word_order_of square_and_cube)
        (least_common_multiple (rule_at table.now i).left (rule_at table.now j).left)) }
{
    let multiple = table.left(i).lcm(alloc, table.left(j))?;
    check_small(&multiple)?;
    Ok(is_word(alloc, 1, Some(&multiple), text)?)
}

/// Whether the least common multiple has the degree, and the members a common letter, that the row tells.
fn looks_like(table: &RuleTable, i: usize, j: usize, row: &str) -> Result<bool, Fail>
    requires first { i < length table.now }
    requires second { j < length table.now }
    requires small { IsSmallWord (word_order_of square_and_cube)
        (least_common_multiple (rule_at table.now i).left (rule_at table.now j).left) }
{
    let has_degree = table.lcm_degree(&[1], &[2, 3], i, j) == number(part(row, 3))?;
    let has_common_letter = part(row, 4) == "common letter";
    Ok(has_degree && table.has_common_letter(i, j) == has_common_letter)
}

/// Whether these are the two normal forms that the row tells.
fn are_forms(
    alloc: Global,
    u: Option<&Monomial>,
    v: Option<&Monomial>,
    row: &str,
) -> Result<bool, Fail> {
    Ok(is_word(alloc, 1, u, part(row, 5))? && is_word(alloc, 1, v, part(row, 6))?)
}

/// Whether the members have the normal forms that the row tells.
fn forms_are(alloc: Global, table: &RuleTable, i: usize, j: usize, row: &str) -> Result<bool, Fail>
    requires rules { (n : ℕ) × (table.now ≡ take n sample_rules) }
    requires first { i < length table.now }
    requires second { j < length table.now }
    requires small { IsSmallWord (word_order_of square_and_cube)
        (least_common_multiple (rule_at table.now i).left (rule_at table.now j).left) }
{
    word_rewriting::sample();
    let order = order(alloc)?;
    match table.different_forms(alloc, &order, i, j)? {
        None => Ok(part(row, 5) == "same"),
        Some((u, v)) => are_forms(alloc, u.as_ref(), v.as_ref(), row),
    }
}

/// Whether the critical pair of two of the first n rules has the least common multiple, its degree, a letter in both
/// members or none, and the different normal forms that the row tells.
fn pair_is(alloc: Global, n: usize, row: &str) -> Result<bool, Fail> {
    let i = number(part(row, 0))? as usize;
    let j = number(part(row, 1))? as usize;
    let table = first_rules(alloc, n)?;
    ensure(i < table.len() && j < table.len(), "no such rule")?;
    Ok(
        multiple_is(alloc, &table, i, j, part(row, 2))?
            && looks_like(&table, i, j, row)?
            && forms_are(alloc, &table, i, j, row)?,
    )
}

/// Whether these are the indexes of the earlier rules that share a letter with a rule, in some order.
fn shares(
    alloc: Global,
    table: &RuleTable,
    marks: &mut Marks,
    j: usize,
    row: &str,
) -> Result<bool, Fail> {
    ensure(j < table.len(), "no such rule")?;
    table.list_sharing(j, marks)?;
    let mut indexes = marks.indexes().to_vec(alloc)?;
    indexes.sort()?;
    let mut out = String::new(alloc);
    for i in &indexes {
        out.push_str(if out.is_empty() { "" } else { " " })?;
        out.push_str(format!(in alloc; "{i}")?.as_str())?;
    }
    Ok(out.as_str() == row)
}

#[test]
fn words_have_normal_forms(rt: HostRuntime) -> Result<(), Fail> {
    let alloc = rt.alloc();
    let table = table(alloc)?;
    for row in [
        "1 | 1",
        "x | x",
        "x^2 | s1",
        "x^7 | s1^2*s2",
        "x^5*s2^3 | s1*s2^4",
        "s1^7 | s1*s2^4",
        "s2^7 | s2^7",
    ] {
        let found = normal_form(alloc, &table, part(row, 0))?;
        ensure(is_word(alloc, 1, found.as_ref(), part(row, 1))?, row)?;
    }
    Ok(())
}

#[test]
fn pairs_have_normal_forms(rt: HostRuntime) -> Result<(), Fail> {
    let alloc = rt.alloc();
    for row in [
        "0 | 1 | x^2*s1 | 4 | no letter | same",
        "0 | 2 | x^2*s2 | 5 | common letter | same",
        "1 | 2 | x*s1*s2 | 6 | no letter | same",
        "1 | 3 | x*s1^3 | 7 | common letter | same",
    ] {
        ensure(pair_is(alloc, 4, row)?, row)?;
    }
    Ok(())
}

#[test]
fn pairs_have_different_normal_forms(rt: HostRuntime) -> Result<(), Fail> {
    let alloc = rt.alloc();
    let row = "0 | 1 | x^2*s1 | 4 | no letter | s1^2 | x*s2";
    ensure(pair_is(alloc, 2, row)?, row)?;
    let row = "1 | 2 | x*s1*s2 | 6 | no letter | s2^2 | s1^3";
    ensure(pair_is(alloc, 3, row)?, row)
}

#[test]
fn rules_share_letters(rt: HostRuntime) -> Result<(), Fail> {
    let alloc = rt.alloc();
    let table = table(alloc)?;
    let mut marks = Marks::new(alloc);
    for (j, row) in ["", "0", "0 1", "1"].iter().enumerate() {
        ensure(shares(alloc, &table, &mut marks, j, row)?, row)?;
    }
    Ok(())
}

/// The rules and one from s1*s2 to zero.
fn longer_table(alloc: Global) -> Result<RuleTable, Fail> {
    let mut table = table(alloc)?;
    let last = exact(alloc, &[0, 1, 1])?;
    table.push(alloc, last, None)?;
    Ok(table)
}

#[test]
fn a_rule_to_zero(rt: HostRuntime) -> Result<(), Fail> {
    let alloc = rt.alloc();
    let mut table = longer_table(alloc)?;
    ensure(table.len() == 5, "five rules")?;
    let mut marks = Marks::new(alloc);
    ensure(shares(alloc, &table, &mut marks, 4, "1 2 3")?, "s1*s2")?;
    ensure(table.right(4).is_none(), "a right side")?;
    ensure(is_word(alloc, 1, Some(table.left(4)), "s1*s2")?, "s1*s2")?;
    table.truncate(4);
    ensure(table.len() == 4, "no rule to zero")
}
