//! Reading whole numbers and ranges, and the values of numbers.

ghost use Rattle.std.specs.Prelude.{◌≡◌, map, IfOk};
ghost use Rattle.geo_tokens.specs.Reading.{next_is};
ghost use Rattle.geo_tokens.specs.Gives.{Gives};
ghost use Rattle.problem_data.specs.Marks.{int_firsts};
ghost use Rattle.problem_data.specs.Grammar.{plain_int};
ghost use Rattle.problem_data.specs.Meaning.{number_of};
ghost use Rattle.problem_syntax.specs.Reading.{plain_int_at, negative_int_at, int_at, ints_at, range_at, ranges_at};

use geo_tokens::stop::{Stop, add, followed_by, next_in, next_is, token};
use geo_tokens::token::{Kind, Sym, Token, number_in};
use problem_data::tree::{Int, RangeText};
use std::alloc::{AllocError, Global};

/// The values of whole numbers.
pub fn values(alloc: Global, numbers: &[Int]) -> Result<Vec<i64>, AllocError>
    ensures { IfOk result (λ v. v.items ≡ map number_of numbers.now) }
{
    let mut found = Vec::new(alloc);
    for number in numbers {
        found.push(number.value)?;
    }
    Ok(found)
}

/// What a number token says.
pub fn int_of(number: Token) -> Int
    ensures { result ≡ plain_int number }
{
    Int {
        place: number.start,
        value: i64::from(number_in(number.kind)),
    }
}

/// A number without a sign.
fn plain_int(tokens: &[Token]) -> Result<(Int, &[Token]), Stop<'_>>
    ensures { Gives (λ i. i) result (plain_int_at tokens.now) }
{
    let (number, rest) = token(tokens, Kind::Number(0))?;
    Ok((int_of(number), rest))
}

/// A minus and a number.
fn negative_int(tokens: &[Token]) -> Result<(Int, &[Token]), Stop<'_>>
    ensures { Gives (λ i. i) result (negative_int_at tokens.now) }
{
    let (minus, rest) = token(tokens, Kind::Symbol(Sym::Minus))?;
    let (number, rest) = token(rest, Kind::Number(0))?;
    let value = -i64::from(number_in(number.kind));
    Ok((
        Int {
            place: minus.start,
            value,
        },
        rest,
    ))
}

/// A whole number.
#[tactic(auto, unfolding(crate::specs::Reading::int_at))]
pub fn int(tokens: &[Token]) -> Result<(Int, &[Token]), Stop<'_>>
    ensures { Gives (λ i. i) result (int_at tokens.now) }
{
    if next_is(tokens, Kind::Symbol(Sym::Minus)) {
        negative_int(tokens)
    } else {
        plain_int(tokens)
    }
}

/// A whole number begins here.
pub fn begins_int(tokens: &[Token]) -> bool
    ensures { result ≡ next_is int_firsts tokens.now }
{
    next_in(tokens, &[Kind::Symbol(Sym::Minus), Kind::Number(0)])
}

/// Whole numbers, one at least.
#[tactic(auto, unfolding(crate::specs::Reading::ints_at))]
pub fn ints(alloc: Global, tokens: &[Token]) -> Result<(Vec<Int>, &[Token]), Stop<'_>>
    ensures { Gives (λ v. v.items) result (ints_at tokens.now) }
{
    let mut read = Vec::new(alloc);
    let mut rest = add(&mut read, int(tokens))?;
    'items: while begins_int(rest) {
        rest = add(&mut read, int(rest))?;
    }
    Ok((read, rest))
}

/// A range.
#[tactic(auto, unfolding(crate::specs::Reading::range_at))]
pub fn range(tokens: &[Token]) -> Result<(RangeText, &[Token]), Stop<'_>>
    ensures { Gives (λ r. r) result (range_at tokens.now) }
{
    let (low, rest) = followed_by(int(tokens), Kind::Symbol(Sym::DotDot))?;
    let (high, rest) = int(rest)?;
    Ok((RangeText { low, high }, rest))
}

/// The ranges of `within`, one at least.
#[tactic(auto, unfolding(crate::specs::Reading::ranges_at))]
pub fn ranges(alloc: Global, tokens: &[Token]) -> Result<(Vec<RangeText>, &[Token]), Stop<'_>>
    ensures { Gives (λ v. v.items) result (ranges_at tokens.now) }
{
    let mut read = Vec::new(alloc);
    let mut rest = add(&mut read, range(tokens))?;
    'items: while begins_int(rest) {
        rest = add(&mut read, range(rest))?;
    }
    Ok((read, rest))
}
