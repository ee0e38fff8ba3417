//! Refuted boxes that were found before.
//!
//! What is found of a condition that names one object beside the one that is covered stays so for
//! as long as nothing changes that is left to that other object.

use crate::refuted_boxes::{Others, RefutedBoxes};
use geo_conditions::ObjId;
use std::alloc::{AllocError, Global};

/// The most findings that are kept.
const MOST_KEPT: usize = 4096;

/// On which boxes of an object at a place a condition is refuted, and the version of what was left to
/// the other object that was asked for, where it was one.
#[derive(Clone, Copy)]
pub struct Found<const K: usize> {
    pub number: u32,
    pub object: ObjId,
    pub place: u8,
    pub others: Others,
    pub version: u64,
    pub boxes: RefutedBoxes<K>,
}

// The version that a finding holds for: any, where no other object was asked for; none, where there
// were several.
fn version_of(others: Others, versions: &[u64]) -> Option<u64> {
    match others {
        Others::None => Some(0),
        Others::One(o) => versions.get(o.0 as usize).copied(),
        Others::Many => None,
    }
}

// Where findings of a condition with the object belong.
fn slot_of(number: u32, object: ObjId) -> usize {
    let twice = (number as usize).wrapping_mul(2);
    twice.wrapping_add(object.0 as usize) % MOST_KEPT
}

/// Findings, each in a place of its own, from which a later one may drive it out.
pub struct Recalled<const K: usize> {
    found: Vec<Found<K>>,
}

impl<const K: usize> Drop for Recalled<K> {
    fn drop(self) {
        let Recalled { found: _found } = self;
    }
}

impl<const K: usize> Recalled<K> {
    /// Nothing yet of so many conditions.
    pub fn start(alloc: Global, conditions: usize) -> Result<Recalled<K>, AllocError> {
        let nothing = Found {
            number: 0,
            object: ObjId(0),
            place: 0,
            others: Others::None,
            version: 0,
            boxes: RefutedBoxes::Never,
        };
        let most = conditions.saturating_mul(2).min(MOST_KEPT);
        Ok(Recalled {
            found: vec![in alloc; nothing; most]?,
        })
    }

    /// What was found of a condition with the object at the place, where that still holds.
    pub fn get(
        &self,
        number: u32,
        object: ObjId,
        place: u8,
        versions: &[u64],
    ) -> Option<RefutedBoxes<K>> {
        let found = self.found.get(slot_of(number, object))?;
        let version = version_of(found.others, versions)?;
        let is_of_it = found.number == number && found.object.0 == object.0 && found.place == place;
        (is_of_it && found.version == version).then_some(found.boxes)
    }

    /// Keeps a finding, where it can be recalled.
    pub fn keep(&mut self, found: Found<K>, versions: &[u64]) {
        let slot = slot_of(found.number, found.object);
        if slot < self.found.len() {
            if let Some(version) = version_of(found.others, versions) {
                self.found[slot] = found;
                self.found[slot].version = version;
            }
        }
    }
}
