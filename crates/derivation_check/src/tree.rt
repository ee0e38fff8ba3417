//! Whether events are those of one tree.

ghost use Rattle.std.specs.Prelude.{◌≡◌, ◌++◌, ◌∷◌, ◌&&◌, ◌↔◌, IsTrue, IfOk, OnOk, List, reverse};
ghost use Rattle.derivation.specs.declared.event.Event.{Event as EventOf};
ghost use Rattle.derivation_check.specs.Trees.{IsOneTree};
ghost use Rattle.derivation_check.specs.declared.tree.Wanted.TheVariants as wants;
ghost use Rattle.derivation_check.specs.Wanted.{follows, listed, said, spells};

use derivation::Event;
use std::alloc::{AllocError, Global};

/// What may come next.
#[derive(Clone, Copy)]
pub enum Wanted {
    Node,
    Cover,
    /// What is left of a list of covers.
    Covers,
}

/// What comes behind an event in the place of what was wanted.
#[derive(Clone, Copy)]
pub enum Behind {
    Nothing,
    One(Wanted),
    Two(Wanted, Wanted),
}

// What comes behind the event, where it begins what is wanted.
fn follows(wanted: Wanted, e: Event) -> Option<Behind>
    ensures { said result ≡ follows wanted e }
{
    match wanted {
        Wanted::Node => follows_node(e),
        Wanted::Cover => match e {
            Event::By(_) => Some(Behind::Nothing),
            Event::Cut(_, _) | Event::CutFrom(_, _) => {
                Some(Behind::Two(Wanted::Cover, Wanted::Cover))
            }
            _ => None,
        },
        Wanted::Covers => match e {
            Event::Cover(_) => Some(Behind::Two(Wanted::Cover, Wanted::Covers)),
            Event::EndCovers => Some(Behind::Nothing),
            _ => None,
        },
    }
}

fn follows_node(e: Event) -> Option<Behind>
    ensures { said result ≡ follows wants.Node e }
{
    match e {
        Event::SplitShape(_, _) | Event::SplitUpto(_, _, _) | Event::SplitFrom(_, _, _) => {
            Some(Behind::Two(Wanted::Node, Wanted::Node))
        }
        Event::Drop(_, _) => Some(Behind::Two(Wanted::Cover, Wanted::Node)),
        Event::Raise(_, _, _) | Event::Lower(_, _, _) => {
            Some(Behind::Two(Wanted::Covers, Wanted::Node))
        }
        Event::Gone(_) => Some(Behind::One(Wanted::Covers)),
        Event::Dead(_) => Some(Behind::Nothing),
        _ => None,
    }
}

// Puts what comes behind an event on the stack of what is wanted.
fn put(stack: &mut Vec<Wanted>, behind: Behind) -> Result<(), AllocError>
    ensures { OnOk result (reverse stack.new.items ≡ listed behind ++ reverse stack.old.items) }
{
    match behind {
        Behind::Nothing => {}
        Behind::One(first) => stack.push(first)?,
        Behind::Two(first, second) => {
            stack.push(second)?;
            stack.push(first)?;
        }
    }
    Ok(())
}

// Whether the event begins what is wanted next, which then gives way to what comes behind it.
fn takes(stack: &mut Vec<Wanted>, e: Event) -> Result<bool, AllocError>
    ensures { IfOk result (λ goes. (es : List EventOf)
        → spells (e ∷ es) (reverse stack.old.items)
        ≡ goes && spells es (reverse stack.new.items)) }
{
    let Some(wanted) = stack.pop() else {
        return Ok(false);
    };
    match follows(wanted, e) {
        Some(next) => {
            put(stack, next)?;
            Ok(true)
        }
        None => Ok(false),
    }
}

/// Whether the events are those of one tree of nodes, in text order.
pub fn is_one_tree(alloc: Global, events: &[Event]) -> Result<bool, AllocError>
    ensures { IfOk result (λ yes. IsTrue yes ↔ IsOneTree events.now) }
{
    let mut stack = Vec::new(alloc);
    stack.push(Wanted::Node)?;
    for e in events {
        if !takes(&mut stack, *e)? {
            return Ok(false);
        }
    }
    Ok(stack.is_empty())
}
