use crate::memory::filled;
use crate::refused;
use cache::cache::Cache;
use devices::image::Image;
use devices::sector::SectorDevice;
use partition::Partition;
use std::process::Abort;
use std::test::Fail;
use storage::cuttable::Cuttable;
use storage::refusal::{Chain, Link, Name, Refusal};
use storage::storage::Storage;

// Bytes wait in the cache until a sync; what is cut off before it is gone.
fn waits_for_the_sync<C: Cuttable>(rt: &impl Abort, card: &mut C) -> Result<(), Fail>
    requires { (C.Storage.means card.old).in_order }
    ensures { (C.Storage.means card.new).in_order }
{
    let mut buf = [0u8; 4];
    assert_eq!(rt; refused(card.write(510, b"abcd")), None);
    assert_eq!(rt; refused(card.read(510, &mut buf)), None);
    assert_eq!(rt; buf.as_slice(), b"abcd".as_slice());
    card.cut(&[1])?;
    assert_eq!(rt; refused(card.read(510, &mut buf)), None);
    assert_eq!(rt; buf.as_slice(), [0u8; 4].as_slice());
    assert_eq!(rt; refused(card.write(510, b"abcd")), None);
    assert_eq!(rt; refused(card.sync()), None);
    card.cut(&[0])?;
    assert_eq!(rt; refused(card.read(510, &mut buf)), None);
    assert_eq!(rt; buf.as_slice(), b"abcd".as_slice());
    Ok(())
}

// The link i of the fault of a call that was GONE.
fn gone_link<O: Drop, G: Chain + Drop>(
    answer: Result<(), Refusal<O, G>>,
    i: usize,
) -> Option<Link> {
    match answer {
        Err(Refusal::Gone(fault)) => fault.link(i),
        Err(Refusal::Outside(_)) | Ok(()) => None,
    }
}

#[test]
fn cache_over_a_partition_of_an_image(rt: HostRuntime) -> Result<(), Fail> {
    let mut memory = filled(rt.alloc(), 0u8, false, 8_704)?;
    let Ok(image) = Image::mount(memory.image_parts()) else {
        return Err(Fail::new("not mounted"));
    };
    let Ok(part) = Partition::over(image, 512, 8_192) else {
        return Err(Fail::new("no partition"));
    };
    let Ok(mut card) = Cache::over(part, 2) else {
        return Err(Fail::new("no cache"));
    };
    waits_for_the_sync(&rt, &mut card)
}

#[test]
fn partition_of_a_cache_over_a_sector_device(rt: HostRuntime) -> Result<(), Fail> {
    let mut memory = filled(rt.alloc(), 0u8, false, 8_704)?;
    let Ok(device) = SectorDevice::mount(memory.sector_parts()) else {
        return Err(Fail::new("not mounted"));
    };
    let Ok(lines) = Cache::over(device, 16) else {
        return Err(Fail::new("no cache"));
    };
    let Ok(mut card) = Partition::over(lines, 512, 8_192) else {
        return Err(Fail::new("no partition"));
    };
    waits_for_the_sync(&rt, &mut card)
}

#[test]
fn write_back_below_a_read_names_each_offset(rt: HostRuntime) -> Result<(), Fail> {
    let mut memory = filled(rt.alloc(), 0u8, false, 8_704)?;
    let Ok(image) = Image::mount(memory.image_parts()) else {
        return Err(Fail::new("not mounted"));
    };
    let Ok(part) = Partition::over(image, 512, 8_192) else {
        return Err(Fail::new("no partition"));
    };
    let Ok(mut card) = Cache::over(part, 1) else {
        return Err(Fail::new("no cache"));
    };
    assert_eq!(rt; refused(card.write(4_100, b"ab")), None);
    card.set_life(0);
    let mut buf = [1u8; 2];
    let answer = card.read(528, &mut buf);
    assert_eq!(rt;
        gone_link(answer, 2),
        Some(Link {
            name: Name::Image,
            offset: 4_608,
        })
    );
    assert_eq!(rt; buf.as_slice(), [0u8; 2].as_slice());
    assert_eq!(rt;
        gone_link(card.read(16, &mut buf), 0),
        Some(Link {
            name: Name::Cache,
            offset: 16,
        })
    );
    assert_eq!(rt;
        gone_link(card.sync(), 1),
        Some(Link {
            name: Name::Partition,
            offset: 0,
        })
    );
    Ok(())
}

#[test]
fn layers_refuse_what_does_not_fit(rt: HostRuntime) -> Result<(), Fail> {
    let mut memory = filled(rt.alloc(), 0u8, false, 8_704)?;
    let Ok(device) = SectorDevice::mount(memory.sector_parts()) else {
        return Err(Fail::new("not mounted"));
    };
    let Err(refused) = Cache::over(device, 17) else {
        return Err(Fail::new("seventeen lines"));
    };
    let Err(refused) = Partition::over(refused.given, 1_024, 8_192) else {
        return Err(Fail::new("past the end"));
    };
    let Err(refused) = Partition::over(refused.given, usize::MAX, 4_096) else {
        return Err(Fail::new("past the largest offset"));
    };
    assert_eq!(rt; refused.number(), 3);
    Ok(())
}
