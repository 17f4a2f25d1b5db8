// From a `usize`, in which everything is worked out, to the bytes and words in which a state is kept, so that it is small: the low
// byte or word. An `as` alone is proved to lose nothing, and these may lose something.
pub fn byte(x: usize) -> u8 {
    (x & 0xff) as u8
}

pub fn word(x: usize) -> u32 {
    (x & 0xffff_ffff) as u32
}

// A row's value at an index anew; past its end nothing changes.
pub fn put<T: Drop>(row: &mut [T], i: usize, value: T) {
    if let Some(there) = row.get_mut(i) {
        *there = value;
    }
}
