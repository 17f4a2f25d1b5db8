// Builds an input in a lent buffer, record by record. What has no room is left out.
use records::writing::{write_sizes, write_step};
use records::{SizesRecord, StepRecord};

// Sizes in the order of document 01: T, H, L, N.
pub(crate) fn sizes(threads: u8, slots: u8, links: u8, objects: u8) -> SizesRecord {
    SizesRecord {
        threads,
        slots,
        links,
        objects,
    }
}

pub(crate) fn put_sizes(space: &mut [u8], at: usize, record: SizesRecord) {
    if let Some(place) = space.get_mut(at..) {
        let _ = write_sizes(place, record);
    }
}

// A take by this thread, with a tag of four different bytes.
pub(crate) fn put_take(space: &mut [u8], at: usize, thread: u8) {
    let take = StepRecord {
        thread,
        operation: 1,
        tag: 0x0403_0201,
        ..StepRecord::default()
    };
    if let Some(place) = space.get_mut(at..) {
        let _ = write_step(place, take);
    }
}

pub(crate) fn put_byte(space: &mut [u8], at: usize, byte: u8) {
    if let Some(place) = space.get_mut(at) {
        *place = byte;
    }
}

// A sizes record and 6,001 takes by thread 0: the first is answered 1 and the others are refused 28, since the hand is full.
pub(crate) fn put_long(space: &mut [u8]) {
    put_sizes(space, 0, sizes(2, 1, 1, 2));
    for at in (10..lines::INPUT).step_by(10) {
        put_take(space, at, 0);
    }
}
