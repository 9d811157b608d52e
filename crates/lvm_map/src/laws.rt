//! Laws of places and of first fit. Each call does nothing: its contract is the law.
ghost use Rattle.lvm_map.specs.Laws.{PlacesDiffer, PlacesAreData, NewPlacesAreFree, MapIsOne, NoPlaceIsNoMap, CopiesStay, NewVolumeIsValid, MoreCopiesAreValid};

/// Two blocks of copies of volumes stand at two places, each in the data area of a member and inside
/// its partitions.
pub fn places_are_one_to_one()
    ensures differ { PlacesDiffer }
    ensures data { PlacesAreData }
{}

/// First fit has one answer: one map, or no place.
pub fn first_fit_is_one()
    ensures map { MapIsOne }
    ensures no_place { NoPlaceIsNoMap }
{}

/// What is allocated was free, is there, is used once, and lies on usable members that are no spares,
/// with the copies of a logical partition on different disks.
pub fn new_places_are_free()
    ensures { NewPlacesAreFree }
{}

/// The descriptor with what was allocated is valid, and the copies that were there stay.
pub fn allocations_are_valid()
    ensures new { NewVolumeIsValid }
    ensures more { MoreCopiesAreValid }
    ensures stay { CopiesStay }
{}
