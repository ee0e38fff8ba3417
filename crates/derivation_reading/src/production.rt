//! The productions of the grammar: what may come behind a token.
ghost use Rattle.std.specs.Prelude.{◌≡◌, ℕ, List, [], ◌∷◌};
ghost use Rattle.derivation.specs.declared.event.Event.TheVariants as events;
ghost use Rattle.derivation_reading.specs.declared.symbol.Symbol.{Symbol as SymbolOf};
ghost use Rattle.derivation_reading.specs.declared.symbol.Symbol.TheVariants as symbols;
ghost use Rattle.derivation_reading.specs.declared.symbol.Terminal.TheVariants as terminals;
ghost use Rattle.derivation_reading.specs.Grammar.{Lookup, next, place_by, lookup, goes, gives, text_by, node_by, cover_by, part_by, split_at, bound_at, cut_at, signed};
ghost use Rattle.derivation_reading.specs.Outcomes.{said, begins, IsMark};

use crate::names::{are_same, dimension_of, object_of, place_of};
use crate::symbol::{Part, Sign, Symbol, Terminal};
use derivation::Event;
use geo_conditions::ObjId;
use geo_tokens::names::Names;

/// What may come behind a token in the place of what was open before it.
#[derive(Clone, Copy)]
pub enum Behind {
    Nothing,
    One(Symbol),
    Two(Symbol, Symbol),
}

/// What a token makes of what is open.
#[derive(Clone, Copy)]
pub enum Outcome {
    /// It goes on in no text.
    Wrong,
    /// It is a name or a dimension that stands for nothing.
    Unknown,
    /// It goes on, with no event.
    Goes(Behind),
    /// With it an event is whole.
    Gives(Event, Behind),
}

fn one(symbol: Symbol) -> Outcome
    ensures { said result ≡ goes (symbol ∷ []) }
{
    Outcome::Goes(Behind::One(symbol))
}

/// What a token makes of an open symbol.
pub fn next(names: &Names, symbol: Symbol, terminal: Terminal, name: &[u8]) -> Outcome
    ensures { said result ≡ next (lookup names.now) symbol terminal name.now }
{
    match terminal {
        Terminal::Name => at_name(names, symbol, name),
        Terminal::Absent => at_place(names, symbol, b"absent".as_slice()),
        Terminal::Number(number) => at_number(names, symbol, number),
        Terminal::Minus => at_minus(symbol),
        _ => at_mark(symbol, terminal),
    }
}

// A word of the grammar, or the name of an object or a place.
fn at_name(names: &Names, symbol: Symbol, name: &[u8]) -> Outcome
    ensures { said result ≡ next (lookup names.now) symbol terminals.Name name.now }
{
    match symbol {
        Symbol::Text => text_by(name),
        Symbol::Node => node_by(name),
        Symbol::SplitPart(o, d) => part_by(o, d, name),
        Symbol::Cover => cover_by(name),
        Symbol::SplitObject => match object_of(names, name) {
            Some(o) => one(Symbol::SplitBy(o)),
            None => Outcome::Unknown,
        },
        Symbol::DropObject => match object_of(names, name) {
            Some(o) => one(Symbol::DropShape(o)),
            None => Outcome::Unknown,
        },
        Symbol::BoundObject(part) => match object_of(names, name) {
            Some(o) => one(Symbol::BoundDimension(part, o)),
            None => Outcome::Unknown,
        },
        Symbol::GoneObject => match object_of(names, name) {
            Some(o) => one(Symbol::GoneCovers(o)),
            None => Outcome::Unknown,
        },
        _ => at_place(names, symbol, name),
    }
}

// A place of an object, by the name of its shape or by the word `absent`.
fn at_place(names: &Names, symbol: Symbol, name: &[u8]) -> Outcome
    ensures { said result ≡ place_by (lookup names.now) symbol name.now }
{
    match symbol {
        Symbol::SplitShape(o) => match place_of(names, o, name) {
            Some(place) => split_shape(o, place),
            None => Outcome::Unknown,
        },
        Symbol::DropShape(o) => match place_of(names, o, name) {
            Some(place) => drop_shape(o, place),
            None => Outcome::Unknown,
        },
        Symbol::Covers(o) => match place_of(names, o, name) {
            Some(place) => cover_of(o, place),
            None => Outcome::Unknown,
        },
        _ => Outcome::Wrong,
    }
}

fn split_shape(o: ObjId, place: u8) -> Outcome
    ensures { said result ≡ gives (events.SplitShape o place) (symbols.Node ∷ symbols.Node ∷ []) }
{
    Outcome::Gives(
        Event::SplitShape(o, place),
        Behind::Two(Symbol::Node, Symbol::Node),
    )
}

fn drop_shape(o: ObjId, place: u8) -> Outcome
    ensures { said result ≡ gives (events.Drop o place) (symbols.Cover ∷ symbols.Node ∷ []) }
{
    Outcome::Gives(
        Event::Drop(o, place),
        Behind::Two(Symbol::Cover, Symbol::Node),
    )
}

fn cover_of(o: ObjId, place: u8) -> Outcome
    ensures { said result ≡ gives (events.Cover place) (symbols.Cover ∷ symbols.Covers o ∷ []) }
{
    Outcome::Gives(
        Event::Cover(place),
        Behind::Two(Symbol::Cover, Symbol::Covers(o)),
    )
}

fn text_by(name: &[u8]) -> Outcome
    ensures { said result ≡ text_by name.now }
{
    if are_same(name, b"none".as_slice()) {
        return Outcome::Goes(Behind::Two(Symbol::Node, Symbol::Qed));
    }
    match node_symbol(name) {
        Some(first) => Outcome::Goes(Behind::Two(first, Symbol::Qed)),
        None => Outcome::Wrong,
    }
}

fn node_by(name: &[u8]) -> Outcome
    ensures { said result ≡ node_by name.now [] }
{
    match node_symbol(name) {
        Some(first) => one(first),
        None => Outcome::Wrong,
    }
}

// What comes behind the word that begins a node.
fn node_symbol(word: &[u8]) -> Option<Symbol>
    ensures { (more : List SymbolOf) → begins result more ≡ node_by word.now more }
{
    if are_same(word, b"split".as_slice()) {
        Some(Symbol::SplitObject)
    } else if are_same(word, b"drop".as_slice()) {
        Some(Symbol::DropObject)
    } else if are_same(word, b"raise".as_slice()) {
        Some(Symbol::BoundObject(Part::From))
    } else if are_same(word, b"lower".as_slice()) {
        Some(Symbol::BoundObject(Part::Upto))
    } else if are_same(word, b"gone".as_slice()) {
        Some(Symbol::GoneObject)
    } else if are_same(word, b"dead".as_slice()) {
        Some(Symbol::DeadNumber)
    } else {
        None
    }
}

fn cover_by(word: &[u8]) -> Outcome
    ensures { said result ≡ cover_by word.now }
{
    if are_same(word, b"by".as_slice()) {
        one(Symbol::ByNumber)
    } else if are_same(word, b"cut".as_slice()) {
        one(Symbol::CutDimension(Part::Upto))
    } else if are_same(word, b"from".as_slice()) {
        one(Symbol::CutDimension(Part::From))
    } else {
        Outcome::Wrong
    }
}

fn part_by(o: ObjId, d: u32, word: &[u8]) -> Outcome
    ensures { said result ≡ part_by o d word.now }
{
    if are_same(word, b"upto".as_slice()) {
        one(Symbol::SplitNumber(Part::Upto, o, d, Sign::Plus))
    } else if are_same(word, b"from".as_slice()) {
        one(Symbol::SplitNumber(Part::From, o, d, Sign::Plus))
    } else {
        Outcome::Wrong
    }
}

// A dimension, a number with its sign, or the number of a condition.
fn at_number(names: &Names, symbol: Symbol, number: u32) -> Outcome
    ensures { (name : List ℕ)
        → said result ≡ next (lookup names.now) symbol (terminals.Number number) name }
{
    match symbol {
        Symbol::SplitBy(o) => match dimension_of(names, number) {
            Some(d) => one(Symbol::SplitPart(o, d)),
            None => Outcome::Unknown,
        },
        Symbol::BoundDimension(part, o) => match dimension_of(names, number) {
            Some(d) => one(Symbol::BoundNumber(part, o, d, Sign::Plus)),
            None => Outcome::Unknown,
        },
        Symbol::CutDimension(part) => match dimension_of(names, number) {
            Some(d) => one(Symbol::CutNumber(part, d, Sign::Plus)),
            None => Outcome::Unknown,
        },
        Symbol::SplitNumber(part, o, d, sign) => split_at(part, o, d, signed(sign, number)),
        Symbol::BoundNumber(part, o, d, sign) => {
            one(Symbol::BoundCovers(part, o, d, signed(sign, number)))
        }
        Symbol::CutNumber(part, d, sign) => cut_at(part, d, signed(sign, number)),
        Symbol::DeadNumber => Outcome::Gives(Event::Dead(number), Behind::Nothing),
        Symbol::ByNumber => Outcome::Gives(Event::By(number), Behind::Nothing),
        _ => Outcome::Wrong,
    }
}

fn signed(sign: Sign, number: u32) -> i64
    ensures { result ≡ signed sign number }
{
    match sign {
        Sign::Plus => i64::from(number),
        Sign::Minus => -i64::from(number),
    }
}

fn split_at(part: Part, o: ObjId, d: u32, value: i64) -> Outcome
    ensures { said result ≡ gives (split_at part o d value) (symbols.Node ∷ symbols.Node ∷ []) }
{
    let event = match part {
        Part::Upto => Event::SplitUpto(o, d, value),
        Part::From => Event::SplitFrom(o, d, value),
    };
    Outcome::Gives(event, Behind::Two(Symbol::Node, Symbol::Node))
}

fn bound_at(part: Part, o: ObjId, d: u32, value: i64) -> Outcome
    ensures { said result ≡ gives (bound_at part o d value) (symbols.Covers o ∷ symbols.Node ∷ []) }
{
    let event = match part {
        Part::Upto => Event::Lower(o, d, value),
        Part::From => Event::Raise(o, d, value),
    };
    Outcome::Gives(event, Behind::Two(Symbol::Covers(o), Symbol::Node))
}

fn cut_at(part: Part, d: u32, value: i64) -> Outcome
    ensures { said result ≡ gives (cut_at part d value) (symbols.Cover ∷ symbols.Cover ∷ []) }
{
    let event = match part {
        Part::Upto => Event::Cut(d, value),
        Part::From => Event::CutFrom(d, value),
    };
    Outcome::Gives(event, Behind::Two(Symbol::Cover, Symbol::Cover))
}

// The minus in front of a number.
fn at_minus(symbol: Symbol) -> Outcome
    ensures { (L : Lookup) (name : List ℕ)
        → said result ≡ next L symbol terminals.Minus name }
{
    match symbol {
        Symbol::SplitNumber(part, o, d, Sign::Plus) => {
            one(Symbol::SplitNumber(part, o, d, Sign::Minus))
        }
        Symbol::BoundNumber(part, o, d, Sign::Plus) => {
            one(Symbol::BoundNumber(part, o, d, Sign::Minus))
        }
        Symbol::CutNumber(part, d, Sign::Plus) => one(Symbol::CutNumber(part, d, Sign::Minus)),
        _ => Outcome::Wrong,
    }
}

// A bracket or a reserved word.
fn at_mark(symbol: Symbol, terminal: Terminal) -> Outcome
    requires { IsMark terminal }
    ensures { (L : Lookup) (name : List ℕ) → said result ≡ next L symbol terminal name }
{
    match (symbol, terminal) {
        (Symbol::Qed, Terminal::Qed) => Outcome::Goes(Behind::Nothing),
        (Symbol::SplitBy(o), Terminal::Shape) => one(Symbol::SplitShape(o)),
        (Symbol::BoundCovers(part, o, d, value), Terminal::Open) => bound_at(part, o, d, value),
        (Symbol::GoneCovers(o), Terminal::Open) => {
            Outcome::Gives(Event::Gone(o), Behind::One(Symbol::Covers(o)))
        }
        (Symbol::Covers(_), Terminal::Close) => {
            Outcome::Gives(Event::EndCovers, Behind::Nothing)
        }
        _ => Outcome::Wrong,
    }
}
