//! The tuple that lines give.

ghost use Rattle.std.specs.Prelude.{◌≡◌, ◌≤◌, ◌++◌, ◌∷◌, [], length, map, IfOk, OnOk};
ghost use Rattle.problem_data.specs.WellFormed.{IsObject};
ghost use Rattle.layout_text.specs.View.{line_view};
ghost use Rattle.layout_text.specs.Faults.{spot_of, tuple_of};

use crate::first::first_values;
use crate::names::shape_position;
use crate::tree::{LineText, PutText};
use geo_conditions::Layout;
use problem_data::problem::{ObjectDef, Problem};
use problem_syntax::numbers::values;
use std::alloc::{AllocError, Global};

// Puts the object where the line says.
fn put(
    alloc: Global,
    problem: &Problem,
    object: &ObjectDef,
    line: &LineText,
    layout: &mut Layout,
) -> Result<(), AllocError>
    requires { IsObject problem.now object.now }
    ensures { OnOk result (layout.new
        ≡ layout.old ++ spot_of problem.now object.now (line_view line.now) ∷ []) }
{
    match &line.put {
        PutText::Placed(shape, origin) => {
            let place = shape_position(problem, object, &shape.name) + 1;
            let origin = values(alloc, origin.as_slice())?;
            layout.push(place as u8, origin.as_slice())
        }
        PutText::Absent(_) => {
            let place = object.shapes().len() + 1;
            let origin = first_values(alloc, problem, object)?;
            layout.push(place as u8, origin.as_slice())
        }
    }
}

/// The tuple that lines give, of which there are no more than objects.
pub fn build(alloc: Global, problem: &Problem, lines: &[LineText]) -> Result<Layout, AllocError>
    requires lines { length lines.now ≤ length problem.now.objects }
    ensures { IfOk result (λ t. t ≡ tuple_of problem.now (map line_view lines.now)) }
{
    problem.is_said();
    let mut layout = Layout::new(alloc);
    for (i, line) in lines.iter().enumerate() {
        let object = &problem.objects()[i];
        put(alloc, problem, object, line, &mut layout)?;
    }
    Ok(layout)
}
