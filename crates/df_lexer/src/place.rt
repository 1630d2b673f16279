//! Places, moved over bytes.
ghost use Rattle.std.specs.Prelude.{◌≡◌, ◌+◌, ◌<◌, ◌≤◌, length};
ghost use Rattle.df_syntax.specs.Places.{after_byte, moved};

use df_io::Place;

/// The place behind these bytes.
pub fn moved(place: Place, bytes: &[u8]) -> Place
    requires line { place.line + length bytes.now ≤ 4294967295 }
    requires column { place.column + length bytes.now ≤ 4294967295 }
    ensures { result ≡ moved place bytes.now }
{
    let mut at = place;
    for byte in bytes {
        at = after(at, *byte);
    }
    at
}

// The place behind one byte.
fn after(place: Place, byte: u8) -> Place
    requires line { place.line < 4294967295 }
    requires column { place.column < 4294967295 }
    ensures { result ≡ after_byte place byte }
{
    if byte == b'\n' {
        Place {
            line: place.line + 1,
            column: 1,
        }
    } else {
        Place {
            line: place.line,
            column: place.column + 1,
        }
    }
}
