//! The end of a statement.

ghost use Rattle.geo_tokens.specs.Gives.{Gives};
ghost use Rattle.problem_data.specs.View.{statement_view};
ghost use Rattle.problem_syntax.specs.Reading.{ended_at};

use geo_tokens::stop::{Stop, followed_by};
use geo_tokens::token::{Kind, Sym, Token};
use problem_data::tree::Statement;

/// A statement, where a semicolon ends it.
pub fn ended(statement: Statement, tokens: &[Token]) -> Result<(Statement, &[Token]), Stop<'_>>
    ensures { Gives statement_view result (ended_at (statement_view statement) tokens.now) }
{
    followed_by(Ok((statement, tokens)), Kind::Symbol(Sym::Semicolon))
}
