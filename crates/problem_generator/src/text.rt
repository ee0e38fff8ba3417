//! The text of a problem that is made from a seed.

ghost use Rattle.std.specs.Prelude.{◌≡◌, ◌++◌, ◌+◌, ◌^◌, ◌<◌, IfOk, OnOk, string_bytes};
ghost use Rattle.problem_generator.specs.Draws.{state_behind, draw};
ghost use Rattle.problem_generator.specs.Made.{shape_line, shape_lines, object_line, all_shapes, all_objects, made_text};

use crate::draws::Draws;
use std::alloc::{AllocError, Global};

const OBJECTS: u32 = 40;

// Cells along each axis.
#[derive(Clone, Copy)]
struct Size {
    width: u32,
    depth: u32,
    height: u32,
}

fn draw_size(draws: &mut Draws) -> Size
    ensures width { result.width ≡ 1 + draw draws.old.state 1 3 }
    ensures depth { result.depth ≡ 1 + draw draws.old.state 2 3 }
    ensures height { result.height ≡ 1 + draw draws.old.state 3 2 }
    ensures state { draws.new.state ≡ state_behind draws.old.state 3 }
{
    let width = 1 + draws.draw(3);
    let depth = 1 + draws.draw(3);
    let height = 1 + draws.draw(2);
    Size {
        width,
        depth,
        height,
    }
}

// Writes a shape of an object, by its letter.
fn write_shape(text: &mut String, number: u32, letter: &str, size: Size) -> Result<(), AllocError>
    ensures { OnOk result (string_bytes text.new ≡ string_bytes text.old
        ++ shape_line number letter.now size.width size.depth size.height) }
{
    let Size {
        width,
        depth,
        height,
    } = size;
    writeln!(
        text,
        "shape s{number}{letter} box 0 0 0 size {width} {depth} {height} ;"
    )
}

// Writes the two shapes of an object: as its size was drawn, and turned by a quarter.
fn write_shapes(text: &mut String, number: u32, size: Size) -> Result<(), AllocError>
    ensures { OnOk result (string_bytes text.new ≡ string_bytes text.old
        ++ shape_lines number size.width size.depth size.height) }
{
    let turned = Size {
        width: size.depth,
        depth: size.width,
        height: size.height,
    };
    write_shape(text, number, "a", size)?;
    write_shape(text, number, "b", turned)
}

fn write_all_shapes(text: &mut String, mut draws: Draws) -> Result<(), AllocError>
    ensures { OnOk result (string_bytes text.new ≡ string_bytes text.old
        ++ all_shapes draws.state 40) }
{
    for number in 1..=OBJECTS {
        write_shapes(text, number, draw_size(&mut draws))?;
    }
    Ok(())
}

fn write_object(text: &mut String, number: u32) -> Result<(), AllocError>
    ensures { OnOk result (string_bytes text.new ≡ string_bytes text.old ++ object_line number) }
{
    writeln!(
        text,
        "object o{number} as s{number}a, s{number}b at 0..19 0..19 0..9 ;"
    )
}

fn write_all_objects(text: &mut String) -> Result<(), AllocError>
    ensures { OnOk result (string_bytes text.new ≡ string_bytes text.old ++ all_objects 40) }
{
    for number in 1..=OBJECTS {
        write_object(text, number)?;
    }
    Ok(())
}

/// The canonical text of the problem that is made from a seed, which is below 2^31: forty objects
/// that lie apart in a rack of 20 by 20 by 10 cells. Each is 1 to 3 wide, 1 to 3 deep and 1 or 2
/// high, and may be turned by a quarter.
pub fn make_problem(alloc: Global, seed: u32) -> Result<Vec<u8>, AllocError>
    requires { seed < 2 ^ 31 }
    ensures { IfOk result (λ text. text.items ≡ made_text seed) }
{
    let mut text = String::from_str(alloc, "geost 1 dims 3\n")?;
    write_all_shapes(&mut text, Draws { state: seed })?;
    write_all_objects(&mut text)?;
    text.push_str("rule rack : within 0..19 0..19 0..9 ;\nrule free : apart ;\nend\n")?;
    Ok(text.into_bytes())
}
