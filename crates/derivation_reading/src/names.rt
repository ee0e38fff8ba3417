//! What the names and dimensions of a text stand for.
ghost use Rattle.std.specs.Prelude.{◌≡◌, ◌<◌, ◌≤◌, suc, All, MatchOption, ⊤, length, option_map};
ghost use Rattle.std.specs.List.{position};
ghost use Rattle.std.specs.Str.{bytes_eq};
ghost use Rattle.derivation_reading.specs.Grammar.{has_name, lookup};

use geo_conditions::ObjId;
use geo_tokens::names::Names;

/// Whether the two are the same bytes. A comparison one by one costs least, since names are short.
pub fn are_same(name: &[u8], other: &[u8]) -> bool
    ensures { result ≡ bytes_eq name.now other.now }
{
    match (name, other) {
        ([first, rest @ ..], [byte, more @ ..]) => *first == *byte && are_same(rest, more),
        ([], []) => true,
        _ => false,
    }
}

// The number of the first object with this name.
fn number_of(names: &Names, name: &[u8]) -> Option<usize>
    ensures number { result ≡ (lookup names.now).object name.now }
    ensures within { MatchOption result ⊤ (λ o. o < 200) }
{
    names
        .objects()
        .iter()
        .position(|o| are_same(name, o.name().as_bytes()))
}

/// The object with this name.
pub fn object_of(names: &Names, name: &[u8]) -> Option<ObjId>
    ensures { option_map (λ o. o.0) result ≡ (lookup names.now).object name.now }
{
    match number_of(names, name) {
        Some(number) => Some(ObjId(number as u16)),
        None => None,
    }
}

fn has_name(names: &Names, name: &[u8], shape: u16) -> bool
    requires { shape < length names.now.shapes }
    ensures { result ≡ has_name names.now name.now shape }
{
    are_same(name, names.shapes()[shape as usize].as_bytes())
}

// The position of the first of these shapes with this name.
fn position_among(names: &Names, shapes: &[u16], name: &[u8]) -> Option<usize>
    requires { All (λ s. s < length names.now.shapes) shapes.now }
    ensures position { result ≡ position (has_name names.now name.now) shapes.now }
    ensures within { MatchOption result ⊤ (λ at. at < length shapes.now) }
{
    match shapes {
        [first, _rest @ ..] if has_name(names, name, *first) => Some(0),
        [_first, rest @ ..] => match position_among(names, rest, name) {
            Some(at) => Some(at + 1),
            None => None,
        },
        [] => None,
    }
}

/// The place, from 1, of the shape with this name in the list of the object.
pub fn place_of(names: &Names, o: ObjId, name: &[u8]) -> Option<u8>
    ensures { result ≡ (lookup names.now).place o.0 name.now }
{
    let object = names.objects().get(o.0 as usize)?;
    let at = position_among(names, object.shapes(), name)?;
    Some(at as u8 + 1)
}

/// The dimension, from 0, that a text counts from 1.
pub fn dimension_of(names: &Names, number: u32) -> Option<u32>
    ensures { result ≡ (lookup names.now).dimension number }
{
    if 1 <= number && number as usize <= names.dims() {
        Some(number - 1)
    } else {
        None
    }
}
