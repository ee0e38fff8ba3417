//! Variables in sight, and what they stand for.

ghost use Rattle.std.specs.Prelude.{◌≡◌};
ghost use Rattle.rule_expand.specs.PlainTruth.{subject_in, variable_in};
ghost use Rattle.rule_values.specs.View.{env_view, thing_view};

use problem_data::problem::BoxDef;
use rule_expand::plain::Subject;

/// What a variable stands for.
#[derive(Clone, Copy)]
pub enum Thing<'a> {
    /// No object and no box: its fields are 0.
    Nothing,
    /// An object, by its position from 0.
    Object(usize),
    /// A box of a shape.
    Part(&'a BoxDef),
}

/// The variables in sight by their numbers, the innermost first. It takes no memory: each link stands with the call that
/// binds its variable.
#[derive(Clone, Copy)]
pub enum Env<'a> {
    Empty,
    More(&'a Env<'a>, u32, Thing<'a>),
}

/// What the innermost variable of this number stands for.
fn variable<'a>(env: &'a Env<'a>, v: u32) -> Thing<'a>
    ensures { thing_view result ≡ variable_in v (env_view env.now) }
{
    match env {
        Env::Empty => Thing::Nothing,
        Env::More(outer, own, thing) => {
            if v == *own {
                *thing
            } else {
                variable(outer, v)
            }
        }
    }
}

/// What a field or a list of boxes is taken of.
pub fn subject<'a>(env: &'a Env<'a>, s: Subject) -> Thing<'a>
    ensures { thing_view result ≡ subject_in s (env_view env.now) }
{
    match s {
        Subject::Variable(v) => variable(env, v),
        Subject::Object(o) => Thing::Object(o),
    }
}
