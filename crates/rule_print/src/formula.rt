//! How a formula is spelled.

ghost use Rattle.std.specs.Prelude.{◌≡◌, ◌++◌, ◌∷◌, [], IfOk, map, nat_lt, if◌then◌else◌};
ghost use Rattle.rule_syntax.specs.Tree.{formulas};
ghost use Rattle.rule_syntax.specs.View.{expr_view, formula_view, coll_view};
ghost use Rattle.rule_print.specs.Canonical.{name, symbol, word, written};
ghost use Rattle.rule_print.specs.Spelled.{expr_spelling, formula_level, formula_spelling, in_brackets, in_list, quantifier_spelling, coll_spelling, names_spelling, rel_symbol, operands_spelling, mark_before};

use crate::expression::{spell_call, spell_expression};
use crate::lexeme::{
    Lexeme, name_lexeme, number_lexeme, push_all, push_if, push_name, push_symbol, push_word,
};
use crate::rank::{ExprRank, FormulaRank};
use geo_tokens::token::{Keyword, Sym};
use rule_syntax::tree::{Coll, Expr, Formula, PlacedName, QuantKind, Rel};
use std::alloc::AllocError;

fn rel_symbol(rel: Rel) -> Sym
    ensures { result ≡ rel_symbol rel }
{
    match rel {
        Rel::Lt => Sym::Less,
        Rel::Le => Sym::LessEqual,
        Rel::Eq => Sym::Equal,
        Rel::Ne => Sym::NotEqual,
        Rel::Ge => Sym::GreaterEqual,
        Rel::Gt => Sym::Greater,
    }
}

/// Spells the first words of a quantifier.
fn spell_quantifier<'a>(kind: QuantKind, into: &mut Vec<Lexeme<'a>>) -> Result<(), AllocError>
    ensures { IfOk result (λ _. map written into.new.items ≡ map written into.old.items
        ++ quantifier_spelling kind) }
{
    match kind {
        QuantKind::ForAll => push_word(Keyword::ForAll, into),
        QuantKind::Exists => push_word(Keyword::Exists, into),
        QuantKind::AtLeast(n) => {
            push_all(&[Lexeme::Word(Keyword::AtLeast), number_lexeme(n)], into)
        }
        QuantKind::AtMost(n) => {
            push_all(&[Lexeme::Word(Keyword::AtMost), number_lexeme(n)], into)
        }
    }
}

/// Spells names with commas between them.
fn spell_names<'a>(names: &'a [PlacedName], into: &mut Vec<Lexeme<'a>>) -> Result<(), AllocError>
    ensures { IfOk result (λ _. map written into.new.items ≡ map written into.old.items
        ++ names_spelling names.now) }
{
    let mut is_first = true;
    'names: for name in names {
        push_if(!is_first, Sym::Comma, into)?;
        push_name(name, into)?;
        is_first = false;
    }
    Ok(())
}

/// Spells the listed objects.
fn spell_listed<'a>(names: &'a [PlacedName], into: &mut Vec<Lexeme<'a>>) -> Result<(), AllocError>
    ensures { IfOk result (λ _. map written into.new.items ≡ map written into.old.items
        ++ word Keyword.Objects ∷ in_list (names_spelling names.now)) }
{
    push_all(
        &[
            Lexeme::Word(Keyword::Objects),
            Lexeme::Symbol(Sym::ParenOpen),
        ],
        into,
    )?;
    spell_names(names, into)?;
    push_symbol(Sym::ParenClose, into)
}

fn spell_collection<'a>(coll: &'a Coll, into: &mut Vec<Lexeme<'a>>) -> Result<(), AllocError>
    ensures { IfOk result (λ _. map written into.new.items ≡ map written into.old.items
        ++ coll_spelling (coll_view coll.now)) }
{
    match coll {
        Coll::Objects => push_word(Keyword::Objects, into),
        Coll::Listed(names) => spell_listed(names.as_slice(), into),
        Coll::BoxesOf(name) => push_all(
            &[
                Lexeme::Word(Keyword::Boxes),
                Lexeme::Word(Keyword::Of),
                name_lexeme(name),
            ],
            into,
        ),
    }
}

/// Spells a formula where one of this rank may stand.
#[cycle(spell_formula)]
pub fn spell_formula<'a>(
    f: &'a Formula,
    rank: FormulaRank,
    into: &mut Vec<Lexeme<'a>>,
) -> Result<(), AllocError>
    ensures { IfOk result (λ _. map written into.new.items ≡ map written into.old.items
        ++ formula_spelling rank (formula_view f.now)) }
{
    match f {
        Formula::True(_) => push_word(Keyword::True, into),
        Formula::False(_) => push_word(Keyword::False, into),
        Formula::Not(_, inner) => spell_behind(Keyword::Not, inner, FormulaRank::Unary, into),
        Formula::And(_, operands) => spell_joined(
            operands.as_slice(),
            Keyword::And,
            FormulaRank::Conjunction,
            FormulaRank::Unary,
            rank,
            into,
        ),
        Formula::Or(_, operands) => spell_joined(
            operands.as_slice(),
            Keyword::Or,
            FormulaRank::Disjunction,
            FormulaRank::Conjunction,
            rank,
            into,
        ),
        Formula::Implies(_, first, second) => {
            let own = FormulaRank::Implication;
            spell_first(first, own, FormulaRank::Disjunction, rank, into)?;
            spell_second(
                Keyword::Implies,
                second,
                own,
                FormulaRank::Disjunction,
                rank,
                into,
            )
        }
        Formula::Iff(_, first, second) => {
            let own = FormulaRank::Equivalence;
            spell_first(first, own, FormulaRank::Implication, rank, into)?;
            spell_second(
                Keyword::Iff,
                second,
                own,
                FormulaRank::Implication,
                rank,
                into,
            )
        }
        Formula::Compare(_, left, rel, right) => spell_comparison(left, *rel, right, into),
        Formula::Quant(_, kind, variable, coll, body) => {
            spell_range(*kind, variable, coll, into)?;
            spell_formula(body, FormulaRank::Unary, into)
        }
        Formula::Call(_, name, arguments) => spell_call(Sym::At, name, arguments.as_slice(), into),
    }
}

/// Spells a quantifier up to its colon.
fn spell_range<'a>(
    kind: QuantKind,
    variable: &'a PlacedName,
    coll: &'a Coll,
    into: &mut Vec<Lexeme<'a>>,
) -> Result<(), AllocError>
    ensures { IfOk result (λ _. map written into.new.items ≡ map written into.old.items
        ++ (quantifier_spelling kind ++ name variable.now.name ∷ word Keyword.In
        ∷ (coll_spelling (coll_view coll.now) ++ symbol Sym.Colon ∷ []))) }
{
    spell_quantifier(kind, into)?;
    push_all(&[name_lexeme(variable), Lexeme::Word(Keyword::In)], into)?;
    spell_collection(coll, into)?;
    push_symbol(Sym::Colon, into)
}

/// Spells operands with a word between them: a formula of the rank `own`, whose operands have the rank `inner`, in brackets where one of
/// that rank may not stand.
#[cycle(spell_formula)]
fn spell_joined<'a>(
    operands: &'a [Formula],
    mark: Keyword,
    own: FormulaRank,
    inner: FormulaRank,
    rank: FormulaRank,
    into: &mut Vec<Lexeme<'a>>,
) -> Result<(), AllocError>
    ensures { IfOk result (λ _. map written into.new.items ≡ map written into.old.items
        ++ in_brackets own rank (operands_spelling mark inner
        (formulas (map formula_view operands.now)))) }
{
    let in_brackets = own.is_looser(rank);
    push_if(in_brackets, Sym::BracketOpen, into)?;
    spell_operands(operands, mark, inner, into)?;
    push_if(in_brackets, Sym::BracketClose, into)
}

/// Spells a word, and behind it a formula where one of this rank may stand.
#[cycle(spell_formula)]
fn spell_behind<'a>(
    mark: Keyword,
    f: &'a Formula,
    rank: FormulaRank,
    into: &mut Vec<Lexeme<'a>>,
) -> Result<(), AllocError>
    ensures { IfOk result (λ _. map written into.new.items ≡ map written into.old.items
        ++ word mark ∷ formula_spelling rank (formula_view f.now)) }
{
    push_word(mark, into)?;
    spell_formula(f, rank, into)
}

/// Spells a bracket, where a formula of the rank `own` needs one, and behind it the first of its two operands.
#[cycle(spell_formula)]
fn spell_first<'a>(
    first: &'a Formula,
    own: FormulaRank,
    inner: FormulaRank,
    rank: FormulaRank,
    into: &mut Vec<Lexeme<'a>>,
) -> Result<(), AllocError>
    ensures { IfOk result (λ _. map written into.new.items ≡ map written into.old.items
        ++ (if nat_lt (formula_level own) (formula_level rank)
        then symbol Sym.BracketOpen ∷ [] else [])
        ++ formula_spelling inner (formula_view first.now)) }
{
    push_if(own.is_looser(rank), Sym::BracketOpen, into)?;
    spell_formula(first, inner, into)
}

/// Spells a word, the second operand behind it, and the bracket that closes where one is needed.
#[cycle(spell_formula)]
fn spell_second<'a>(
    mark: Keyword,
    second: &'a Formula,
    own: FormulaRank,
    inner: FormulaRank,
    rank: FormulaRank,
    into: &mut Vec<Lexeme<'a>>,
) -> Result<(), AllocError>
    ensures { IfOk result (λ _. map written into.new.items ≡ map written into.old.items
        ++ word mark ∷ (formula_spelling inner (formula_view second.now)
        ++ (if nat_lt (formula_level own) (formula_level rank)
        then symbol Sym.BracketClose ∷ [] else []))) }
{
    push_word(mark, into)?;
    spell_formula(second, inner, into)?;
    push_if(own.is_looser(rank), Sym::BracketClose, into)
}

/// Spells a comparison.
fn spell_comparison<'a>(
    left: &'a Expr,
    rel: Rel,
    right: &'a Expr,
    into: &mut Vec<Lexeme<'a>>,
) -> Result<(), AllocError>
    ensures { IfOk result (λ _. map written into.new.items ≡ map written into.old.items
        ++ expr_spelling ExprRank.Sum (expr_view left.now) ++ symbol (rel_symbol rel)
        ∷ expr_spelling ExprRank.Sum (expr_view right.now)) }
{
    spell_expression(left, ExprRank::Sum, into)?;
    push_symbol(rel_symbol(rel), into)?;
    spell_expression(right, ExprRank::Sum, into)
}

/// A word, but in front of the first operand.
fn push_mark<'a>(
    is_first: bool,
    mark: Keyword,
    into: &mut Vec<Lexeme<'a>>,
) -> Result<(), AllocError>
    ensures { IfOk result (λ _. map written into.new.items ≡ map written into.old.items
        ++ mark_before is_first mark) }
{
    if !is_first {
        push_word(mark, into)?;
    }
    Ok(())
}

/// Spells operands of this rank with a word between them.
#[cycle(spell_formula)]
fn spell_operands<'a>(
    operands: &'a [Formula],
    mark: Keyword,
    rank: FormulaRank,
    into: &mut Vec<Lexeme<'a>>,
) -> Result<(), AllocError>
    ensures { IfOk result (λ _. map written into.new.items ≡ map written into.old.items
        ++ operands_spelling mark rank (formulas (map formula_view operands.now))) }
{
    let mut is_first = true;
    'operands: for operand in operands {
        push_mark(is_first, mark, into)?;
        spell_formula(operand, rank, into)?;
        is_first = false;
    }
    Ok(())
}
