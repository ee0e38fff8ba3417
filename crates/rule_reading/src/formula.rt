//! Reading formulas, by one function for each production of the grammar.

ghost use Rattle.std.specs.Prelude.{◌≡◌, ◌∷◌, [], IfOk, ◌<◌, ◌-◌};
ghost use Rattle.geo_tokens.specs.Class.{class_of};
ghost use Rattle.geo_tokens.specs.Words.{symbol, word};
ghost use Rattle.geo_tokens.specs.Reading.{many_at, cut_at, token_at};
ghost use Rattle.geo_tokens.specs.Gives.{Gives};
ghost use Rattle.geo_tokens.specs.declared.token.Keyword.TheVariants as keywords;
ghost use Rattle.geo_tokens.specs.declared.token.Sym.TheVariants as syms;
ghost use Rattle.rule_syntax.specs.Marks.{quantifiers, rels};
ghost use Rattle.rule_syntax.specs.Grammar.{rel_in, and_of, or_of, implication_of, equivalence_of};
ghost use Rattle.rule_syntax.specs.Reading.{true_at, false_at, not_at, brackets_at, args_at, formula_call_at, comparison_at, unary_over_at, unary_at, and_unary_at, conjunction_at, or_conjunction_at, disjunction_at, behind_at, implication_at, formula_at, expr_at};
ghost use Rattle.rule_syntax.specs.Tree.{comparison};
ghost use Rattle.rule_syntax.specs.View.{argument_views, expr_view, formula_view, formula_views, behind_view};
ghost use Rattle.rule_reading.specs.Bound.{quantified_over_at};

use crate::quantifier::{QUANTIFIERS, begins_quantifier, bound};
use geo_tokens::stop::{Stop, add, behind, followed_by, next_is, one_of, refusal, start_of, token};
use geo_tokens::token::{Keyword, Kind, Sym, Token};
use rule_syntax::expression::{arguments, expression};
use rule_syntax::tree::{Argument, Expr, Formula, Rel};
use rule_syntax::words::{placed_name, refused_arguments};
use std::alloc::{AllocError, Global};

/// A formula that would open a level too many at this token.
#[tactic(auto, using(geo_tokens::proofs::Refused::refused_fails))]
fn refused_formula(tokens: &[Token], kind: Kind) -> Result<(Formula, &[Token]), Stop<'_>>
    ensures { Gives formula_view result (cut_at (class_of kind ∷ []) tokens.now) }
{
    Err(refusal(tokens, &[kind]))
}

/// A quantifier where no level may be opened.
#[tactic(auto, using(geo_tokens::proofs::Refused::refused_fails))]
fn refused_quantifier(tokens: &[Token]) -> Result<(Formula, &[Token]), Stop<'_>>
    ensures { Gives formula_view result (cut_at quantifiers tokens.now) }
{
    Err(refusal(tokens, &QUANTIFIERS))
}

/// The word `true`.
fn truth(tokens: &[Token]) -> Result<(Formula, &[Token]), Stop<'_>>
    ensures { Gives formula_view result (true_at tokens.now) }
{
    let (first, rest) = token(tokens, Kind::Word(Keyword::True))?;
    Ok((Formula::True(first.start), rest))
}

/// The word `false`.
fn falsehood(tokens: &[Token]) -> Result<(Formula, &[Token]), Stop<'_>>
    ensures { Gives formula_view result (false_at tokens.now) }
{
    let (first, rest) = token(tokens, Kind::Word(Keyword::False))?;
    Ok((Formula::False(first.start), rest))
}

/// The mark of a comparison.
fn relation_mark(tokens: &[Token]) -> Result<(Token, &[Token]), Stop<'_>>
    ensures { Gives (λ t. t) result (token_at rels tokens.now) }
{
    one_of(
        tokens,
        &[
            Kind::Symbol(Sym::Less),
            Kind::Symbol(Sym::LessEqual),
            Kind::Symbol(Sym::Equal),
            Kind::Symbol(Sym::NotEqual),
            Kind::Symbol(Sym::GreaterEqual),
            Kind::Symbol(Sym::Greater),
        ],
    )
}

/// How the mark compares.
fn relation_of(mark: Kind) -> Rel
    ensures { result ≡ rel_in mark }
{
    match mark {
        Kind::Symbol(Sym::Less) => Rel::Lt,
        Kind::Symbol(Sym::LessEqual) => Rel::Le,
        Kind::Symbol(Sym::Equal) => Rel::Eq,
        Kind::Symbol(Sym::NotEqual) => Rel::Ne,
        Kind::Symbol(Sym::GreaterEqual) => Rel::Ge,
        _ => Rel::Gt,
    }
}

/// Two expressions that are compared.
fn compared(
    alloc: Global,
    place: u64,
    left: Expr,
    relation: Rel,
    right: Expr,
) -> Result<Formula, AllocError>
    ensures { IfOk result (λ f. formula_view f
        ≡ comparison place (expr_view left) relation (expr_view right)) }
{
    let left = Box::new(alloc, left)?;
    let right = Box::new(alloc, right)?;
    Ok(Formula::Compare(place, left, relation, right))
}

/// Two expressions with a mark between them.
fn comparison<'a>(
    alloc: Global,
    text: &[u8],
    levels: u32,
    tokens: &'a [Token],
) -> Result<(Formula, &'a [Token]), Stop<'a>>
    ensures { Gives formula_view result (comparison_at (expr_at text.now levels) tokens.now) }
{
    let (left, rest) = expression(alloc, text, levels, tokens)?;
    let (mark, rest) = relation_mark(rest)?;
    let (right, rest) = expression(alloc, text, levels, rest)?;
    let place = start_of(tokens);
    Ok((
        compared(alloc, place, left, relation_of(mark.kind), right)?,
        rest,
    ))
}

/// The arguments of a call, where up to `levels` levels may be opened.
fn call_arguments<'a>(
    alloc: Global,
    text: &[u8],
    levels: u32,
    tokens: &'a [Token],
) -> Result<(Vec<Argument>, &'a [Token]), Stop<'a>>
    ensures { Gives argument_views result (args_at text.now levels tokens.now) }
{
    if levels == 0 {
        refused_arguments(tokens)
    } else {
        arguments(alloc, text, levels - 1, tokens)
    }
}

/// A call of a macro that gives a formula.
fn formula_call<'a>(
    alloc: Global,
    text: &[u8],
    levels: u32,
    tokens: &'a [Token],
) -> Result<(Formula, &'a [Token]), Stop<'a>>
    ensures { Gives formula_view result
        (formula_call_at text.now (args_at text.now levels) tokens.now) }
{
    let (first, rest) = token(tokens, Kind::Symbol(Sym::At))?;
    let (name, rest) = placed_name(alloc, text, rest)?;
    let (arguments, rest) = call_arguments(alloc, text, levels, rest)?;
    Ok((Formula::Call(first.start, name, arguments), rest))
}

/// A negation, in which up to `below` levels may be opened.
#[cycle(formula)]
fn negation<'a>(
    alloc: Global,
    text: &[u8],
    below: u32,
    tokens: &'a [Token],
) -> Result<(Formula, &'a [Token]), Stop<'a>>
    ensures { Gives formula_view result (not_at (unary_at text.now below) tokens.now) }
{
    let (first, rest) = token(tokens, Kind::Word(Keyword::Not))?;
    let (inner, rest) = unary(alloc, text, below, rest)?;
    Ok((Formula::Not(first.start, Box::new(alloc, inner)?), rest))
}

/// A formula in brackets.
#[cycle(formula)]
fn brackets<'a>(
    alloc: Global,
    text: &[u8],
    below: u32,
    tokens: &'a [Token],
) -> Result<(Formula, &'a [Token]), Stop<'a>>
    ensures { Gives formula_view result (brackets_at (formula_at text.now below) tokens.now) }
{
    let Some(rest) = behind(tokens, Kind::Symbol(Sym::BracketOpen)) else {
        return Err(Stop::Wrong(tokens));
    };
    let inner = formula(alloc, text, below, rest);
    followed_by(inner, Kind::Symbol(Sym::BracketClose))
}

/// A quantifier with its variable and its body.
#[cycle(formula)]
fn quantified<'a>(
    alloc: Global,
    text: &[u8],
    below: u32,
    tokens: &'a [Token],
) -> Result<(Formula, &'a [Token]), Stop<'a>>
    ensures { Gives formula_view result
        (quantified_over_at text.now (unary_at text.now below) tokens.now) }
{
    let ((place, kind, variable, collection), rest) = bound(alloc, text, tokens)?;
    let (body, rest) = unary(alloc, text, below, rest)?;
    let body = Box::new(alloc, body)?;
    Ok((
        Formula::Quant(place, kind, variable, collection, body),
        rest,
    ))
}

/// A unary where no level may be opened.
fn flat_unary<'a>(
    alloc: Global,
    text: &[u8],
    tokens: &'a [Token],
) -> Result<(Formula, &'a [Token]), Stop<'a>>
    ensures { Gives formula_view result
        (unary_over_at text.now (cut_at (word keywords.Not)) (cut_at (symbol syms.BracketOpen))
        (args_at text.now 0) (cut_at quantifiers) (expr_at text.now 0) tokens.now) }
{
    if next_is(tokens, Kind::Word(Keyword::True)) {
        truth(tokens)
    } else if next_is(tokens, Kind::Word(Keyword::False)) {
        falsehood(tokens)
    } else if next_is(tokens, Kind::Word(Keyword::Not)) {
        refused_formula(tokens, Kind::Word(Keyword::Not))
    } else if next_is(tokens, Kind::Symbol(Sym::BracketOpen)) {
        refused_formula(tokens, Kind::Symbol(Sym::BracketOpen))
    } else if next_is(tokens, Kind::Symbol(Sym::At)) {
        formula_call(alloc, text, 0, tokens)
    } else if begins_quantifier(tokens) {
        refused_quantifier(tokens)
    } else {
        comparison(alloc, text, 0, tokens)
    }
}

/// A unary where a level may be opened.
#[cycle(formula)]
fn nested_unary<'a>(
    alloc: Global,
    text: &[u8],
    levels: u32,
    tokens: &'a [Token],
) -> Result<(Formula, &'a [Token]), Stop<'a>>
    requires { 0 < levels }
    ensures { Gives formula_view result
        (unary_over_at text.now (not_at (unary_at text.now (levels - 1)))
        (brackets_at (formula_at text.now (levels - 1))) (args_at text.now levels)
        (quantified_over_at text.now (unary_at text.now (levels - 1))) (expr_at text.now levels)
        tokens.now) }
{
    if next_is(tokens, Kind::Word(Keyword::True)) {
        truth(tokens)
    } else if next_is(tokens, Kind::Word(Keyword::False)) {
        falsehood(tokens)
    } else if next_is(tokens, Kind::Word(Keyword::Not)) {
        negation(alloc, text, levels - 1, tokens)
    } else if next_is(tokens, Kind::Symbol(Sym::BracketOpen)) {
        brackets(alloc, text, levels - 1, tokens)
    } else if next_is(tokens, Kind::Symbol(Sym::At)) {
        formula_call(alloc, text, levels, tokens)
    } else if begins_quantifier(tokens) {
        quantified(alloc, text, levels - 1, tokens)
    } else {
        comparison(alloc, text, levels, tokens)
    }
}

/// A unary, in which up to `levels` levels may be opened.
#[cycle(formula)]
fn unary<'a>(
    alloc: Global,
    text: &[u8],
    levels: u32,
    tokens: &'a [Token],
) -> Result<(Formula, &'a [Token]), Stop<'a>>
    ensures { Gives formula_view result (unary_at text.now levels tokens.now) }
{
    if levels == 0 {
        flat_unary(alloc, text, tokens)
    } else {
        nested_unary(alloc, text, levels, tokens)
    }
}

/// An `and` and the unary behind it.
#[cycle(formula)]
fn and_unary<'a>(
    alloc: Global,
    text: &[u8],
    levels: u32,
    tokens: &'a [Token],
) -> Result<(Formula, &'a [Token]), Stop<'a>>
    ensures { Gives formula_view result (and_unary_at text.now levels tokens.now) }
{
    let Some(rest) = behind(tokens, Kind::Word(Keyword::And)) else {
        return Err(Stop::Wrong(tokens));
    };
    unary(alloc, text, levels, rest)
}

/// The operands of a conjunction behind the first one.
#[cycle(formula)]
fn more_unaries<'a>(
    alloc: Global,
    text: &[u8],
    levels: u32,
    tokens: &'a [Token],
) -> Result<(Vec<Formula>, &'a [Token]), Stop<'a>>
    ensures { Gives formula_views result
        (many_at (word keywords.And) (and_unary_at text.now levels) tokens.now) }
{
    let mut operands = Vec::new(alloc);
    let mut rest = tokens;
    'items: while next_is(rest, Kind::Word(Keyword::And)) {
        let operand = and_unary(alloc, text, levels, rest);
        rest = add(&mut operands, operand)?;
    }
    Ok((operands, rest))
}

/// A conjunction of one operand is that operand.
fn and_of(place: u64, first: Formula, others: Vec<Formula>) -> Result<Formula, AllocError>
    ensures { IfOk result (λ f. formula_view f
        ≡ and_of place (formula_view first, formula_views others)) }
{
    if others.is_empty() {
        return Ok(first);
    }
    let mut operands = others;
    operands.insert(0, first)?;
    Ok(Formula::And(place, operands))
}

/// A conjunction, in which up to `levels` levels may be opened.
#[cycle(formula)]
#[tactic(auto, unfolding(rule_syntax::specs::Reading::conjunction_at))]
fn conjunction<'a>(
    alloc: Global,
    text: &[u8],
    levels: u32,
    tokens: &'a [Token],
) -> Result<(Formula, &'a [Token]), Stop<'a>>
    ensures { Gives formula_view result (conjunction_at text.now levels tokens.now) }
{
    let (first, rest) = unary(alloc, text, levels, tokens)?;
    let (others, rest) = more_unaries(alloc, text, levels, rest)?;
    Ok((and_of(start_of(tokens), first, others)?, rest))
}

/// An `or` and the conjunction behind it.
#[cycle(formula)]
fn or_conjunction<'a>(
    alloc: Global,
    text: &[u8],
    levels: u32,
    tokens: &'a [Token],
) -> Result<(Formula, &'a [Token]), Stop<'a>>
    ensures { Gives formula_view result (or_conjunction_at text.now levels tokens.now) }
{
    let Some(rest) = behind(tokens, Kind::Word(Keyword::Or)) else {
        return Err(Stop::Wrong(tokens));
    };
    conjunction(alloc, text, levels, rest)
}

/// The operands of a disjunction behind the first one.
#[cycle(formula)]
fn more_conjunctions<'a>(
    alloc: Global,
    text: &[u8],
    levels: u32,
    tokens: &'a [Token],
) -> Result<(Vec<Formula>, &'a [Token]), Stop<'a>>
    ensures { Gives formula_views result
        (many_at (word keywords.Or) (or_conjunction_at text.now levels) tokens.now) }
{
    let mut operands = Vec::new(alloc);
    let mut rest = tokens;
    'items: while next_is(rest, Kind::Word(Keyword::Or)) {
        let operand = or_conjunction(alloc, text, levels, rest);
        rest = add(&mut operands, operand)?;
    }
    Ok((operands, rest))
}

/// A disjunction of one operand is that operand.
fn or_of(place: u64, first: Formula, others: Vec<Formula>) -> Result<Formula, AllocError>
    ensures { IfOk result (λ f. formula_view f
        ≡ or_of place (formula_view first, formula_views others)) }
{
    if others.is_empty() {
        return Ok(first);
    }
    let mut operands = others;
    operands.insert(0, first)?;
    Ok(Formula::Or(place, operands))
}

/// A disjunction, in which up to `levels` levels may be opened.
#[cycle(formula)]
#[tactic(auto, unfolding(rule_syntax::specs::Reading::disjunction_at))]
fn disjunction<'a>(
    alloc: Global,
    text: &[u8],
    levels: u32,
    tokens: &'a [Token],
) -> Result<(Formula, &'a [Token]), Stop<'a>>
    ensures { Gives formula_view result (disjunction_at text.now levels tokens.now) }
{
    let (first, rest) = conjunction(alloc, text, levels, tokens)?;
    let (others, rest) = more_conjunctions(alloc, text, levels, rest)?;
    Ok((or_of(start_of(tokens), first, others)?, rest))
}

/// What is implied, if an `implies` stands here.
#[cycle(formula)]
fn implied<'a>(
    alloc: Global,
    text: &[u8],
    levels: u32,
    tokens: &'a [Token],
) -> Result<(Option<Formula>, &'a [Token]), Stop<'a>>
    ensures { Gives behind_view result
        (behind_at (word keywords.Implies) (disjunction_at text.now levels) tokens.now) }
{
    let Some(rest) = behind(tokens, Kind::Word(Keyword::Implies)) else {
        return Ok((None, tokens));
    };
    let (second, rest) = disjunction(alloc, text, levels, rest)?;
    Ok((Some(second), rest))
}

/// An implication, if there is a second part.
fn implication_of(
    alloc: Global,
    place: u64,
    first: Formula,
    second: Option<Formula>,
) -> Result<Formula, AllocError>
    ensures { IfOk result (λ f. formula_view f
        ≡ implication_of place (formula_view first, behind_view second)) }
{
    match second {
        None => Ok(first),
        Some(second) => {
            let first = Box::new(alloc, first)?;
            let second = Box::new(alloc, second)?;
            Ok(Formula::Implies(place, first, second))
        }
    }
}

/// An implication, in which up to `levels` levels may be opened.
#[cycle(formula)]
#[tactic(auto, unfolding(rule_syntax::specs::Reading::implication_at))]
fn implication<'a>(
    alloc: Global,
    text: &[u8],
    levels: u32,
    tokens: &'a [Token],
) -> Result<(Formula, &'a [Token]), Stop<'a>>
    ensures { Gives formula_view result (implication_at text.now levels tokens.now) }
{
    let (first, rest) = disjunction(alloc, text, levels, tokens)?;
    let (second, rest) = implied(alloc, text, levels, rest)?;
    Ok((
        implication_of(alloc, start_of(tokens), first, second)?,
        rest,
    ))
}

/// What is equivalent, if an `iff` stands here.
#[cycle(formula)]
fn equivalent<'a>(
    alloc: Global,
    text: &[u8],
    levels: u32,
    tokens: &'a [Token],
) -> Result<(Option<Formula>, &'a [Token]), Stop<'a>>
    ensures { Gives behind_view result
        (behind_at (word keywords.Iff) (implication_at text.now levels) tokens.now) }
{
    let Some(rest) = behind(tokens, Kind::Word(Keyword::Iff)) else {
        return Ok((None, tokens));
    };
    let (second, rest) = implication(alloc, text, levels, rest)?;
    Ok((Some(second), rest))
}

/// An equivalence, if there is a second part.
fn equivalence_of(
    alloc: Global,
    place: u64,
    first: Formula,
    second: Option<Formula>,
) -> Result<Formula, AllocError>
    ensures { IfOk result (λ f. formula_view f
        ≡ equivalence_of place (formula_view first, behind_view second)) }
{
    match second {
        None => Ok(first),
        Some(second) => {
            let first = Box::new(alloc, first)?;
            let second = Box::new(alloc, second)?;
            Ok(Formula::Iff(place, first, second))
        }
    }
}

/// A formula, in which up to `levels` levels may be opened.
#[cycle(formula)]
#[tactic(auto, unfolding(rule_syntax::specs::Reading::formula_at))]
pub fn formula<'a>(
    alloc: Global,
    text: &[u8],
    levels: u32,
    tokens: &'a [Token],
) -> Result<(Formula, &'a [Token]), Stop<'a>>
    ensures { Gives formula_view result (formula_at text.now levels tokens.now) }
{
    let (first, rest) = implication(alloc, text, levels, tokens)?;
    let (second, rest) = equivalent(alloc, text, levels, rest)?;
    Ok((
        equivalence_of(alloc, start_of(tokens), first, second)?,
        rest,
    ))
}
