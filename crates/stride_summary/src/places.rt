//! The places of keys.
ghost use Rattle.std.specs.Prelude.{◌≡◌, ◌++◌, ◌∷◌, [], None, true, IfOk, if◌then◌else◌, is_ok, length, ◌≤◌, vec_len};
ghost use Rattle.stride_summary.specs.Places.{TellsPlaces, place_under};

use crate::key::Key;
use crate::stretch::Stretch;
use std::collections::BTreeMap;
use sw_base::Memory;

// Whether all keys of the map are less.
fn is_behind(places: &BTreeMap<Key, usize>, key: &Key) -> bool
    ensures { result ≡ true → place_under places.now key.now ≡ None }
{
    match places.last_key_value() {
        Some((last, _)) => last.cmp(key).is_lt(),
        None => false,
    }
}

/// The place of the key.
pub fn place_under(places: &BTreeMap<Key, usize>, key: &Key) -> Option<usize>
    ensures { result ≡ place_under places.now key.now }
{
    // Where lines come in order, further ones aren't looked for.
    if is_behind(places, key) {
        return None;
    }
    places.get(key).copied()
}

/// Adds a stretch of this key, which has no place so far, and tells its place.
pub fn add_key(
    stretches: &mut Vec<Stretch>,
    places: &mut BTreeMap<Key, usize>,
    key: Key,
    stretch: Stretch,
) -> Result<usize, Memory>
    requires key { stretch.key ≡ key }
    requires told { TellsPlaces places.old stretches.old.items }
    requires fresh { place_under places.old key ≡ None }
    ensures told { TellsPlaces places.new stretches.new.items }
    ensures more { vec_len stretches.old ≤ vec_len stretches.new }
    ensures place { IfOk result (λ place. place ≡ length stretches.old.items) }
    ensures items { stretches.new.items ≡ (if is_ok result then stretches.old.items ++ stretch ∷ [] else stretches.old.items) }
{
    stretches.reserve(1)?;
    let place = stretches.len();
    places.insert(key, place)?;
    stretches.push(stretch).unwrap();
    Ok(place)
}
