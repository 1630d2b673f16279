//! Lists that are read and written at any place.
ghost use Rattle.std.specs.Prelude.{◌≡◌, pos, slice_index_or, slice_set};

/// What a list has at a place, and 0 behind its end.
pub fn at(list: &[i64], place: usize) -> i64
    ensures { result ≡ slice_index_or list.now place (pos 0) }
{
    if place < list.len() { list[place] } else { 0 }
}

/// Writes to a place of a list; behind its end nothing is written.
pub fn put(list: &mut [i64], place: usize, number: i64)
    ensures { list.new ≡ slice_set list.old place number }
{
    if place < list.len() {
        list[place] = number;
    }
}

/// Adds to what a list has at a place.
pub fn add(list: &mut [i64], place: usize, number: i64) {
    let sum = at(list, place).saturating_add(number);
    put(list, place, sum);
}
