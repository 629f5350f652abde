//! Tests of a bill's place.
ghost use Rattle.std.specs.Prelude.{◌≡◌};
ghost use Rattle.title_register.specs.PlaceRef.{place_view};
ghost use Rattle.legal_frames.specs.Rows.{is_absent, is_held, is_parting_with};

use ebl_base::Checksum;
use title_register::PlaceRef;

pub(crate) fn is_absent(place: PlaceRef<'_>) -> bool
    ensures { result ≡ is_absent (place_view place.entry) }
{
    match place {
        PlaceRef::Absent => true,
        _ => false,
    }
}

pub(crate) fn is_held(place: PlaceRef<'_>) -> bool
    ensures { result ≡ is_held (place_view place.entry) }
{
    match place {
        PlaceRef::Held { .. } => true,
        _ => false,
    }
}

/// Whether the bill is parting with this entry.
pub(crate) fn is_parting_with(entry: Checksum, place: PlaceRef<'_>) -> bool
    ensures { result ≡ is_parting_with entry (place_view place.entry) }
{
    match place {
        PlaceRef::Parting { entry: link, .. } => link.name == entry,
        _ => false,
    }
}
