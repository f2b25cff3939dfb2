//! A region of room 2: what is pushed, and what a mark leads back to.

use std::alloc::AllocError;
use undo_region::Region;

#[test]
fn rewinding_to_one_of_two_leaves_one_and_room_for_one(rt: HostRuntime) -> Result<(), AllocError> {
    let mut region: Region<u8> = Region::open(rt.alloc(), 2)?;
    assert!(rt; region.room() == 2);
    region.push(7);
    region.push(8);
    assert!(rt; region.mark() == 2);
    assert!(rt; region.get(1) == 8);
    assert!(rt; region.room() == 0);
    region.rewind(1);
    assert!(rt; region.mark() == 1);
    assert!(rt; region.get(0) == 7);
    assert!(rt; region.room() == 1);
    Ok(())
}
