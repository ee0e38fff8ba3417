//! The lines of rules that refuse together.

ghost use Rattle.std.specs.Prelude.{◌≡◌, ◌≤◌, ◌<◌, ◌++◌, All, IfOk, OnOk, codes, length};
ghost use Rattle.problem_data.specs.Cells.{IsShaped};
ghost use Rattle.problem_data.specs.SomeRules.{HasNumbers};
ghost use Rattle.search_commands.specs.Why.{core_lines, core_line, named_line, rule_lines, rule_name, without_line, without_lines};

use crate::blocks::headed;
use command_input::Status;
use command_reply::{TextReply, reply_of};
use geo_chan::Piece;
use geo_conditions::Layout;
use problem_data::problem::Problem;
use std::alloc::{AllocError, Global};

// The name of the rule of a number, from 1.
fn rule_name(problem: &Problem, number: u16) -> &[u8]
    requires { (1 ≤ number) × (number ≤ length problem.now.rules) }
    ensures { result.now ≡ rule_name problem.now number }
{
    let rules = problem.rules();
    let rule = &rules[number as usize - 1];
    rule.name().as_bytes()
}

// How many rules are left.
fn core_line(alloc: Global, count: usize) -> Result<TextReply, AllocError>
    ensures text { IfOk result (λ reply. reply.text.items ≡ core_line count) }
    ensures status { IfOk result (λ reply. reply.status ≡ Status.Answered) }
{
    let pieces = [
        Piece::Bytes(b"core "),
        Piece::Number(count as i128),
        Piece::Bytes(b"\n"),
    ];
    reply_of(alloc, Status::Answered, &pieces)
}

// A line with the name of a rule.
fn rule_line(alloc: Global, problem: &Problem, number: u16) -> Result<Vec<u8>, AllocError>
    requires { (1 ≤ number) × (number ≤ length problem.now.rules) }
    ensures { IfOk result (λ v. v.items ≡ named_line problem.now (codes "rule ") number) }
{
    let pieces = [
        Piece::Bytes(b"rule "),
        Piece::Bytes(rule_name(problem, number)),
        Piece::Bytes(b"\n"),
    ];
    let reply = reply_of(alloc, Status::Answered, &pieces)?;
    Ok(reply.text)
}

// A line with the name of a rule, and a layout without it.
fn without_line(
    alloc: Global,
    problem: &Problem,
    number: u16,
    layout: &Layout,
) -> Result<Vec<u8>, AllocError>
    requires number { (1 ≤ number) × (number ≤ length problem.now.rules) }
    requires layout { IsShaped problem.now layout.now }
    ensures { IfOk result (λ v. v.items ≡ without_line problem.now number layout.now) }
{
    let head = [
        Piece::Bytes(b"without "),
        Piece::Bytes(rule_name(problem, number)),
        Piece::Bytes(b"\n"),
    ];
    let reply = headed(alloc, problem, &head, layout, Status::Answered)?;
    Ok(reply.text)
}

// Appends a line for each rule.
fn push_rules(
    alloc: Global,
    problem: &Problem,
    rules: &[u16],
    text: &mut Vec<u8>,
) -> Result<(), AllocError>
    requires { HasNumbers (length problem.now.rules) rules.now }
    ensures { OnOk result (text.new.items ≡ text.old.items ++ rule_lines problem.now rules.now) }
{
    for k in 0..rules.len() {
        let line = rule_line(alloc, problem, rules[k])?;
        text.extend_from_slice(line.as_slice())?;
    }
    Ok(())
}

// Appends a line for each rule with the layout without it.
fn push_layouts(
    alloc: Global,
    problem: &Problem,
    rules: &[u16],
    layouts: &[Layout],
    text: &mut Vec<u8>,
) -> Result<(), AllocError>
    requires numbers { HasNumbers (length problem.now.rules) rules.now }
    requires alike { length layouts.now ≡ length rules.now }
    requires layouts { All (IsShaped problem.now) layouts.now }
    ensures { OnOk result (text.new.items
        ≡ text.old.items ++ without_lines problem.now rules.now layouts.now) }
{
    for k in 0..rules.len() {
        let line = without_line(alloc, problem, rules[k], &layouts[k])?;
        text.extend_from_slice(line.as_slice())?;
    }
    Ok(())
}

// All lines in front of the derivation.
pub fn core_lines(
    alloc: Global,
    problem: &Problem,
    rules: &[u16],
    layouts: &[Layout],
) -> Result<TextReply, AllocError>
    requires numbers { HasNumbers (length problem.now.rules) rules.now }
    requires alike { length layouts.now ≡ length rules.now }
    requires layouts { All (IsShaped problem.now) layouts.now }
    ensures text { IfOk result (λ reply.
        reply.text.items ≡ core_lines problem.now rules.now layouts.now) }
    ensures status { IfOk result (λ reply. reply.status ≡ Status.Answered) }
{
    let mut text = core_line(alloc, rules.len())?.text;
    push_rules(alloc, problem, rules, &mut text)?;
    push_layouts(alloc, problem, rules, layouts, &mut text)?;
    Ok(TextReply {
        status: Status::Answered,
        text,
    })
}
