// How places tell where a table's data blocks stand.
ghost use Rattle.data_places.specs.Places.{CountsAreTold, PlacesAreTold};

/// A table has as many data blocks as the count of its extents says.
pub fn counts_tell()
    ensures { CountsAreTold }
{}

/// The data block at a position stands in its extent where its place says.
pub fn places_tell()
    ensures { PlacesAreTold }
{}
