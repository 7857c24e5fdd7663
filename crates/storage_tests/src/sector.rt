use crate::memory::filled;
use crate::refused;
use devices::sector::{SectorDevice, SectorParts, Sectors};
use std::test::Fail;
use storage::cuttable::Cuttable;
use storage::storage::Storage;

const SIZE: usize = 4_096;

#[test]
fn mounts_only_a_legal_size_of_two_equal_parts(rt: HostRuntime) -> Result<(), Fail> {
    // Parts of its own: what `Memory` lends by its methods is of one length and shows zeros.
    let mut durable = vec![in rt.alloc(); 7u8; SIZE + 256]?;
    let mut visible = vec![in rt.alloc(); 9u8; SIZE + 256]?;
    let parts = SectorParts {
        durable: &mut durable,
        visible: &mut visible,
        medium: Sectors,
    };
    match SectorDevice::mount(parts) {
        Ok(_) => Err(Fail::new("mounted")),
        Err(back) => {
            assert_eq!(rt; back.number(), 3);
            assert_eq!(rt; back.given.visible.first().copied(), Some(9));
            Ok(())
        }
    }
}

#[test]
fn life_ends_between_sectors(rt: HostRuntime) -> Result<(), Fail> {
    let mut memory = filled(rt.alloc(), b'a', false, SIZE)?;
    let bytes = vec![in rt.alloc(); b'b'; 1_024]?;
    let Ok(mut device) = SectorDevice::mount(memory.sector_parts()) else {
        return Err(Fail::new("not mounted"));
    };
    device.set_life(2);
    assert_eq!(rt; refused(device.write(SIZE, &[])), None);
    assert_eq!(rt; refused(device.write(510, &bytes)), Some(2));
    assert_eq!(rt; refused(device.write(0, &[])), Some(2));
    device.cut(&[1])?;
    let mut buf = [0u8; 4];
    assert_eq!(rt; refused(device.read(508, &mut buf)), None);
    assert_eq!(rt; buf.as_slice(), b"aabb".as_slice());
    assert_eq!(rt; refused(device.read(1_022, &mut buf)), None);
    assert_eq!(rt; buf.as_slice(), b"bbaa".as_slice());
    Ok(())
}

#[test]
fn sync_takes_a_step(rt: HostRuntime) -> Result<(), Fail> {
    let mut memory = filled(rt.alloc(), b'a', false, SIZE)?;
    let Ok(mut device) = SectorDevice::mount(memory.sector_parts()) else {
        return Err(Fail::new("not mounted"));
    };
    device.set_life(2);
    assert_eq!(rt; refused(device.write(0, b"bb")), None);
    assert_eq!(rt; refused(device.sync()), None);
    assert_eq!(rt; refused(device.sync()), Some(2));
    device.cut(&[0])?;
    let mut buf = [9u8; 4];
    assert_eq!(rt; refused(device.read(0, &mut buf)), None);
    assert_eq!(rt; buf.as_slice(), b"bbaa".as_slice());
    Ok(())
}

#[test]
fn cut_takes_one_choice_a_sector(rt: HostRuntime) -> Result<(), Fail> {
    let mut memory = filled(rt.alloc(), b'a', false, SIZE)?;
    let bytes = vec![in rt.alloc(); b'b'; 2_048]?;
    let Ok(mut device) = SectorDevice::mount(memory.sector_parts()) else {
        return Err(Fail::new("not mounted"));
    };
    assert_eq!(rt; refused(device.write(0, &bytes)), None);
    assert!(rt; device.cut(&[]).is_err());
    device.cut(&[2, 255, 0])?;
    let mut buf = [0u8; 4];
    assert_eq!(rt; refused(device.read(510, &mut buf)), None);
    assert_eq!(rt; buf.as_slice(), b"aabb".as_slice());
    assert_eq!(rt; refused(device.read(1_022, &mut buf)), None);
    assert_eq!(rt; buf.as_slice(), b"bbaa".as_slice());
    assert_eq!(rt; refused(device.read(1_534, &mut buf)), None);
    assert_eq!(rt; buf.as_slice(), b"aaaa".as_slice());
    Ok(())
}
