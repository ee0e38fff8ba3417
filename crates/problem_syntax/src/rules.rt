//! Reading the statements of macros and rules.

ghost use Rattle.std.specs.Prelude.{◌≡◌};
ghost use Rattle.geo_tokens.specs.Gives.{Gives};
ghost use Rattle.problem_data.specs.Grammar.{param_in};
ghost use Rattle.problem_syntax.specs.Reading.{next_at, param_at, param_list_at, some_params_at, params_at, means_at, equals_at, body_at, macro_rest_at, macro_at, apart_at, within_at, plain_at, demand_at, rule_rest_at, rule_at};
ghost use Rattle.problem_data.specs.View.{body_view, demand_view, statement_view};

use crate::end::ended;
use crate::numbers::ranges;
use geo_tokens::stop::{Stop, add, behind, followed_by, next_is, one_of};
use geo_tokens::token::{Keyword, Kind, Sym, Token};
use problem_data::tree::{
    MacroBody, MacroText, ParamKind, ParamText, RuleBody, RuleText, Statement,
};
use rule_reading::formula::formula;
use rule_syntax::expression::expression;
use rule_syntax::tree::PlacedName;
use rule_syntax::words::placed_name;
use std::alloc::Global;

/// What a parameter stands for, by its word.
fn kind_of(word: Token) -> ParamKind
    ensures { result ≡ param_in word.kind }
{
    match word.kind {
        Kind::Word(Keyword::Int) => ParamKind::Int,
        Kind::Word(Keyword::Object) => ParamKind::Object,
        _ => ParamKind::Box,
    }
}

/// A parameter of a macro.
#[tactic(auto, unfolding(crate::specs::Reading::param_at))]
fn param<'a>(
    alloc: Global,
    text: &[u8],
    tokens: &'a [Token],
) -> Result<(ParamText, &'a [Token]), Stop<'a>>
    ensures { Gives (λ p. p) result (param_at text.now tokens.now) }
{
    let name = placed_name(alloc, text, tokens);
    let (name, rest) = followed_by(name, Kind::Symbol(Sym::Colon))?;
    let (word, rest) = one_of(
        rest,
        &[
            Kind::Word(Keyword::Int),
            Kind::Word(Keyword::Object),
            Kind::Word(Keyword::Box),
        ],
    )?;
    let kind = kind_of(word);
    Ok((ParamText { name, kind }, rest))
}

/// A comma and a parameter.
fn next_param<'a>(
    alloc: Global,
    text: &[u8],
    tokens: &'a [Token],
) -> Result<(ParamText, &'a [Token]), Stop<'a>>
    ensures { Gives (λ p. p) result (next_at (param_at text.now) tokens.now) }
{
    let Some(rest) = behind(tokens, Kind::Symbol(Sym::Comma)) else {
        return Err(Stop::Wrong(tokens));
    };
    param(alloc, text, rest)
}

/// Parameters with commas between them, one at least.
#[tactic(auto, unfolding(crate::specs::Reading::param_list_at))]
fn param_list<'a>(
    alloc: Global,
    text: &[u8],
    tokens: &'a [Token],
) -> Result<(Vec<ParamText>, &'a [Token]), Stop<'a>>
    ensures { Gives (λ v. v.items) result (param_list_at text.now tokens.now) }
{
    let mut read = Vec::new(alloc);
    let mut rest = add(&mut read, param(alloc, text, tokens))?;
    'items: while next_is(rest, Kind::Symbol(Sym::Comma)) {
        rest = add(&mut read, next_param(alloc, text, rest))?;
    }
    Ok((read, rest))
}

/// Parameters with commas between them, or none.
fn some_params<'a>(
    alloc: Global,
    text: &[u8],
    tokens: &'a [Token],
) -> Result<(Vec<ParamText>, &'a [Token]), Stop<'a>>
    ensures { Gives (λ v. v.items) result (some_params_at text.now tokens.now) }
{
    if next_is(tokens, Kind::Name) {
        param_list(alloc, text, tokens)
    } else {
        Ok((Vec::new(alloc), tokens))
    }
}

/// The parameters of a macro, in their brackets.
#[tactic(auto, unfolding(crate::specs::Reading::params_at))]
fn params<'a>(
    alloc: Global,
    text: &[u8],
    tokens: &'a [Token],
) -> Result<(Vec<ParamText>, &'a [Token]), Stop<'a>>
    ensures { Gives (λ v. v.items) result (params_at text.now tokens.now) }
{
    let Some(rest) = behind(tokens, Kind::Symbol(Sym::ParenOpen)) else {
        return Err(Stop::Wrong(tokens));
    };
    let params = some_params(alloc, text, rest);
    followed_by(params, Kind::Symbol(Sym::ParenClose))
}

/// A formula that a macro stands for.
fn formula_body<'a>(
    alloc: Global,
    text: &[u8],
    levels: u32,
    tokens: &'a [Token],
) -> Result<(MacroBody, &'a [Token]), Stop<'a>>
    ensures { Gives body_view result (means_at text.now levels tokens.now) }
{
    let Some(rest) = behind(tokens, Kind::Word(Keyword::Means)) else {
        return Err(Stop::Wrong(tokens));
    };
    let (formula, rest) = formula(alloc, text, levels, rest)?;
    Ok((MacroBody::Means(formula), rest))
}

/// An expression that a macro stands for.
fn value_body<'a>(
    alloc: Global,
    text: &[u8],
    levels: u32,
    tokens: &'a [Token],
) -> Result<(MacroBody, &'a [Token]), Stop<'a>>
    ensures { Gives body_view result (equals_at text.now levels tokens.now) }
{
    let Some(rest) = behind(tokens, Kind::Word(Keyword::Is)) else {
        return Err(Stop::Wrong(tokens));
    };
    let (value, rest) = expression(alloc, text, levels, rest)?;
    Ok((MacroBody::Is(value), rest))
}

/// What a macro stands for.
#[tactic(auto, unfolding(crate::specs::Reading::body_at))]
fn macro_body<'a>(
    alloc: Global,
    text: &[u8],
    levels: u32,
    tokens: &'a [Token],
) -> Result<(MacroBody, &'a [Token]), Stop<'a>>
    ensures { Gives body_view result (body_at text.now levels tokens.now) }
{
    if next_is(tokens, Kind::Word(Keyword::Means)) {
        formula_body(alloc, text, levels, tokens)
    } else {
        value_body(alloc, text, levels, tokens)
    }
}

/// What stands behind the name of a macro.
fn macro_rest<'a>(
    alloc: Global,
    text: &[u8],
    levels: u32,
    name: PlacedName,
    tokens: &'a [Token],
) -> Result<(Statement, &'a [Token]), Stop<'a>>
    ensures { Gives statement_view result (macro_rest_at text.now levels name tokens.now) }
{
    let (params, rest) = params(alloc, text, tokens)?;
    let (body, rest) = macro_body(alloc, text, levels, rest)?;
    ended(Statement::Macro(MacroText { name, params, body }), rest)
}

/// The statement of a macro.
#[tactic(auto, unfolding(crate::specs::Reading::macro_at))]
pub fn macro_statement<'a>(
    alloc: Global,
    text: &[u8],
    levels: u32,
    tokens: &'a [Token],
) -> Result<(Statement, &'a [Token]), Stop<'a>>
    ensures { Gives statement_view result (macro_at text.now levels tokens.now) }
{
    let Some(rest) = behind(tokens, Kind::Word(Keyword::Macro)) else {
        return Err(Stop::Wrong(tokens));
    };
    let (name, rest) = placed_name(alloc, text, rest)?;
    macro_rest(alloc, text, levels, name, rest)
}

/// The word `apart`.
fn apart(tokens: &[Token]) -> Result<(RuleBody, &[Token]), Stop<'_>>
    ensures { Gives demand_view result (apart_at tokens.now) }
{
    let Some(rest) = behind(tokens, Kind::Word(Keyword::Apart)) else {
        return Err(Stop::Wrong(tokens));
    };
    Ok((RuleBody::Apart, rest))
}

/// The word `within` and the ranges behind it.
fn within(alloc: Global, tokens: &[Token]) -> Result<(RuleBody, &[Token]), Stop<'_>>
    ensures { Gives demand_view result (within_at tokens.now) }
{
    let Some(rest) = behind(tokens, Kind::Word(Keyword::Within)) else {
        return Err(Stop::Wrong(tokens));
    };
    let (ranges, rest) = ranges(alloc, rest)?;
    Ok((RuleBody::Within(ranges), rest))
}

/// A formula that a rule asks for.
fn plain<'a>(
    alloc: Global,
    text: &[u8],
    levels: u32,
    tokens: &'a [Token],
) -> Result<(RuleBody, &'a [Token]), Stop<'a>>
    ensures { Gives demand_view result (plain_at text.now levels tokens.now) }
{
    let (formula, rest) = formula(alloc, text, levels, tokens)?;
    Ok((RuleBody::Plain(formula), rest))
}

/// What a rule asks for, by its first word.
#[tactic(auto, unfolding(crate::specs::Reading::demand_at))]
fn rule_body<'a>(
    alloc: Global,
    text: &[u8],
    levels: u32,
    tokens: &'a [Token],
) -> Result<(RuleBody, &'a [Token]), Stop<'a>>
    ensures { Gives demand_view result (demand_at text.now levels tokens.now) }
{
    if next_is(tokens, Kind::Word(Keyword::Apart)) {
        apart(tokens)
    } else if next_is(tokens, Kind::Word(Keyword::Within)) {
        within(alloc, tokens)
    } else {
        plain(alloc, text, levels, tokens)
    }
}

/// What stands behind the name of a rule.
fn rule_rest<'a>(
    alloc: Global,
    text: &[u8],
    levels: u32,
    name: PlacedName,
    tokens: &'a [Token],
) -> Result<(Statement, &'a [Token]), Stop<'a>>
    ensures { Gives statement_view result (rule_rest_at text.now levels name tokens.now) }
{
    let Some(rest) = behind(tokens, Kind::Symbol(Sym::Colon)) else {
        return Err(Stop::Wrong(tokens));
    };
    let (body, rest) = rule_body(alloc, text, levels, rest)?;
    ended(Statement::Rule(RuleText { name, body }), rest)
}

/// The statement of a rule.
#[tactic(auto, unfolding(crate::specs::Reading::rule_at))]
pub fn rule<'a>(
    alloc: Global,
    text: &[u8],
    levels: u32,
    tokens: &'a [Token],
) -> Result<(Statement, &'a [Token]), Stop<'a>>
    ensures { Gives statement_view result (rule_at text.now levels tokens.now) }
{
    let Some(rest) = behind(tokens, Kind::Word(Keyword::Rule)) else {
        return Err(Stop::Wrong(tokens));
    };
    let (name, rest) = placed_name(alloc, text, rest)?;
    rule_rest(alloc, text, levels, name, rest)
}
