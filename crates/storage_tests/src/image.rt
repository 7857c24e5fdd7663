use crate::memory::filled;
use crate::refused;
use devices::image::{Image, ImageParts, TornMarks};
use std::test::Fail;
use storage::cuttable::Cuttable;
use storage::storage::Storage;

const SIZE: usize = 4_096;

#[test]
fn mounts_only_a_legal_size_of_three_equal_parts(rt: HostRuntime) -> Result<(), Fail> {
    // Parts of its own: what `Memory` lends by its methods is of one length and shows zeros.
    let mut durable = vec![in rt.alloc(); 7u8; SIZE]?;
    let mut visible = vec![in rt.alloc(); 9u8; SIZE]?;
    let mut torn = vec![in rt.alloc(); true; SIZE]?;
    assert!(rt; SIZE <= durable.len() && SIZE <= visible.len() && SIZE <= torn.len());
    let short = ImageParts {
        durable: &mut durable[0..SIZE - 512],
        visible: &mut visible[0..SIZE - 512],
        medium: TornMarks {
            torn: &mut torn[0..SIZE - 512],
        },
    };
    assert!(rt; Image::mount(short).is_err());
    let uneven = ImageParts {
        durable: &mut durable,
        visible: &mut visible[0..SIZE - 512],
        medium: TornMarks { torn: &mut torn },
    };
    match Image::mount(uneven) {
        Ok(_) => Err(Fail::new("mounted")),
        Err(back) => {
            assert_eq!(rt; back.number(), 3);
            assert_eq!(rt; back.given.visible.first().copied(), Some(9));
            assert_eq!(rt; back.given.medium.torn.first().copied(), Some(true));
            Ok(())
        }
    }
}

#[test]
fn cut_takes_one_choice_a_cell(rt: HostRuntime) -> Result<(), Fail> {
    let mut memory = filled(rt.alloc(), b'a', true, SIZE)?;
    let Ok(mut image) = Image::mount(memory.image_parts()) else {
        return Err(Fail::new("not mounted"));
    };
    assert_eq!(rt; refused(image.write(8, &[b'b'; 60])), None);
    image.cut(&[50, 0, 1])?;
    let mut buf = [0u8; 80];
    assert_eq!(rt; refused(image.read(0, &mut buf)), None);
    let expected =
        b"aaaaaaaa22222222aaaaaaaaaaaaaaaabbbbbbbbbbbbbbbbaaaaaaaaaaaaaaaaaaaaaaaaaaaaaaaa";
    assert_eq!(rt; buf.as_slice(), expected.as_slice());
    Ok(())
}

#[test]
fn torn_stays_torn_under_a_whole_cell(rt: HostRuntime) -> Result<(), Fail> {
    let mut memory = filled(rt.alloc(), b'a', true, SIZE)?;
    let Ok(mut image) = Image::mount(memory.image_parts()) else {
        return Err(Fail::new("not mounted"));
    };
    assert_eq!(rt; refused(image.write(4, &[b'b'; 2])), None);
    assert_eq!(rt; refused(image.write(0, &[b'c'; 16])), None);
    image.cut(&[b'2'])?;
    let mut buf = [0u8; 16];
    assert_eq!(rt; refused(image.read(0, &mut buf)), None);
    assert_eq!(rt; buf.as_slice(), b"aaaa22aaaaaaaaaa".as_slice());
    Ok(())
}

#[test]
fn life_counts_writes_and_syncs(rt: HostRuntime) -> Result<(), Fail> {
    let mut memory = filled(rt.alloc(), b'a', true, SIZE)?;
    let Ok(mut image) = Image::mount(memory.image_parts()) else {
        return Err(Fail::new("not mounted"));
    };
    image.set_life(3);
    assert_eq!(rt; refused(image.write(0, &[b'b'; 16])), None);
    assert_eq!(rt; refused(image.write(SIZE, &[])), None);
    assert_eq!(rt; refused(image.sync()), None);
    assert_eq!(rt; refused(image.write(16, &[b'b'; 16])), Some(2));
    let mut buf = [1u8; 4];
    assert_eq!(rt; refused(image.read(0, &mut buf)), Some(2));
    assert_eq!(rt; buf.as_slice(), [0u8; 4].as_slice());
    image.set_life(9);
    assert_eq!(rt; refused(image.sync()), Some(2));
    assert_eq!(rt; refused(image.write(SIZE, &[1])), Some(1));
    image.cut(&[0])?;
    assert_eq!(rt; refused(image.read(0, &mut buf)), None);
    assert_eq!(rt; buf.as_slice(), b"bbbb".as_slice());
    Ok(())
}

#[test]
fn range_is_checked_first(rt: HostRuntime) -> Result<(), Fail> {
    let mut memory = filled(rt.alloc(), b'a', true, SIZE)?;
    let Ok(mut image) = Image::mount(memory.image_parts()) else {
        return Err(Fail::new("not mounted"));
    };
    let mut buf = [5u8; 4];
    assert_eq!(rt; refused(image.read(SIZE - 3, &mut buf)), Some(1));
    assert_eq!(rt; refused(image.read(usize::MAX, &mut buf)), Some(1));
    assert_eq!(rt; buf.as_slice(), [5u8; 4].as_slice());
    assert_eq!(rt; refused(image.read(SIZE, &mut [])), None);
    assert_eq!(rt; refused(image.write(SIZE + 1, &[])), Some(1));
    assert!(rt; image.cut(&[]).is_err());
    assert_eq!(rt; refused(image.read(SIZE - 4, &mut buf)), None);
    assert_eq!(rt; buf.as_slice(), b"aaaa".as_slice());
    Ok(())
}
