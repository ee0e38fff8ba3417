//! The events of a derivation: its nodes and the pieces of its covers, in the order of its text. A
//! derivation is a flat list of 16 bytes an event, without pointers, so that it is written, cut
//! and read back from its end as fast as memory goes.

use geo_conditions::ObjId;

/// A piece of a derivation, in text order. Dimensions count from 0, places and conditions from 1. It takes 16 bytes.
#[derive(Clone, Copy)]
pub enum Event {
    /// Two cases: the object has this place, or it has another one.
    SplitShape(ObjId, u8),
    /// Two cases: the coordinate is at most this, or it is greater.
    SplitUpto(ObjId, u32, i64),
    /// Two cases: the coordinate is at least this, or it is less.
    SplitFrom(ObjId, u32, i64),
    /// The object has no point at this place. A cover follows.
    Drop(ObjId, u8),
    /// The coordinate is at least this. A list of covers follows.
    Raise(ObjId, u32, i64),
    /// The coordinate is at most this. A list of covers follows.
    Lower(ObjId, u32, i64),
    /// The object has no point. A list of covers follows.
    Gone(ObjId),
    /// The condition of this number is refuted.
    Dead(u32),
    /// The cover of this place follows.
    Cover(u8),
    /// A list of covers ends.
    EndCovers,
    /// A cover: the condition of this number is refuted on the whole box.
    By(u32),
    /// A cover: one of the points up to this coordinate, and one of the others.
    Cut(u32, i64),
    /// A cover: one of the points from this coordinate on, and one of the others.
    CutFrom(u32, i64),
}

const _: () = prove!(size_of::<Event>() == 16);
