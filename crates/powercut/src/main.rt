// A power cut, from the first write to what the card shows after it: on an image, which is
// cut by cells, on a sector device, which is cut by sectors, and on a cache over a partition of
// an image, where writes wait in the cache.
#![tactic(auto)]

use anyhow::anyhow;
use cache::cache::Cache;
use devices::image::Image;
use devices::memory::Memory;
use devices::sector::{SectorDevice, SectorParts, Sectors};
use partition::Partition;
use std::io;
use storage::client::store;
use storage::cuttable::Cuttable;
use storage::refusal::{Chain, Refusal};
use storage::sizes::{CELL, SECTOR};
use storage::storage::Storage;

const SIZE: usize = 4_096;

// The program `cards` has the same three lines; a function for both would need a crate for it.
fn print_chain<F: Chain>(rt: &impl Print, fault: &F) -> io::Result<()> {
    for link in (0..usize::MAX).map_while(|i| fault.link(i)) {
        print!(rt; " {link}")?;
    }
    Ok(())
}

// Not by a Display of the refusal: the form of the line is this program's.
fn print_answer<O: Chain + Drop, G: Chain + Drop>(
    rt: &impl Print,
    call: &str,
    answer: Result<(), Refusal<O, G>>,
) -> io::Result<()> {
    let Err(refusal) = answer else {
        return println!(rt; "{call}: ok");
    };
    let number = refusal.number();
    print!(rt; "{call}: no {number}")?;
    print_chain(rt, &refusal)?;
    println!(rt; "")
}

// The first bytes of a cell or a sector, as letters.
fn print_start<S: Storage>(rt: &impl Print, card: &mut S, offset: usize) -> io::Result<()>
    requires { (S.Storage.means card.old).in_order }
    ensures { (S.Storage.means card.new).in_order }
{
    let mut start = [0u8; CELL];
    let answer = card.read(offset, &mut start);
    if answer.is_err() {
        return print_answer(rt, "read", answer);
    }
    print!(rt; "  {offset:>4} ")?;
    for byte in start {
        let letter = byte as char;
        print!(rt; "{letter}")?;
    }
    println!(rt; "")
}

fn print_four<S: Storage>(rt: &impl Print, card: &mut S, width: usize) -> io::Result<()>
    requires { (S.Storage.means card.old).in_order }
    ensures { (S.Storage.means card.new).in_order }
{
    // By number, which is what the width is multiplied by.
    for i in 0..4usize {
        print_start(rt, card, i.saturating_mul(width))?;
    }
    Ok(())
}

// Writes that are settled, writes that are not, and the power cut between them.
fn story<C: Cuttable>(
    rt: &impl Print,
    card: &mut C,
    width: usize,
    old: &[u8],
    new: &[u8],
) -> io::Result<()>
    requires { (C.Storage.means card.old).in_order }
    ensures { (C.Storage.means card.new).in_order }
{
    print_answer(rt, "store a in all four", store(card, 0, old))?;
    print_answer(
        rt,
        "write b from the middle of the first on",
        card.write(width / 2, new),
    )?;
    print_answer(
        rt,
        "write at the largest offset",
        card.write(usize::MAX, new),
    )?;
    println!(rt; "the life is set to 0")?;
    card.set_life(0);
    print_answer(rt, "sync", card.sync())?;
    println!(rt; "the power is cut, with the choices 50, 1, 0 and 1")?;
    match card.cut(&[50, 1, 0, 1]) {
        Ok(()) => println!(rt; "what stands, by offset:")?,
        Err(refused) => {
            let number = refused.number();
            println!(rt; "cut: no {number}")?;
        }
    }
    print_four(rt, card, width)
}

// Each mount's memory is made here, in the program: nothing below it allocates.
fn on_image(rt: &HostRuntime) -> anyhow::Result<()> {
    let heap = rt.alloc();
    let mut memory = Memory {
        durable: vec![in heap; 0u8; SIZE]?,
        visible: vec![in heap; 0u8; SIZE]?,
        torn: vec![in heap; false; SIZE]?,
    };
    let Ok(mut image) = Image::mount(memory.image_parts()) else {
        return Err(anyhow!("the image does not mount"));
    };
    println!(rt; "an image, cut by cells of 16 bytes")?;
    story(rt, &mut image, CELL, &[b'a'; 64], &[b'b'; 48])?;
    Ok(())
}

// Not in a `Memory`, which has torn marks beside the bytes.
fn on_sector_device(rt: &HostRuntime) -> anyhow::Result<()> {
    let heap = rt.alloc();
    let mut durable = vec![in heap; 0u8; SIZE]?;
    let mut visible = vec![in heap; 0u8; SIZE]?;
    let old = vec![in heap; b'a'; 2_048]?;
    let new = vec![in heap; b'b'; 1_536]?;
    let parts = SectorParts {
        durable: &mut durable,
        visible: &mut visible,
        medium: Sectors,
    };
    let Ok(mut device) = SectorDevice::mount(parts) else {
        return Err(anyhow!("the sector device does not mount"));
    };
    println!(rt; "a sector device, cut by sectors of 512 bytes")?;
    story(rt, &mut device, SECTOR, &old, &new)?;
    Ok(())
}

fn on_stack(rt: &HostRuntime) -> anyhow::Result<()> {
    let heap = rt.alloc();
    let mut memory = Memory {
        durable: vec![in heap; 0u8; 4_608]?,
        visible: vec![in heap; 0u8; 4_608]?,
        torn: vec![in heap; false; 4_608]?,
    };
    let Ok(image) = Image::mount(memory.image_parts()) else {
        return Err(anyhow!("the image does not mount"));
    };
    let Ok(part) = Partition::over(image, 512, SIZE) else {
        return Err(anyhow!("the partition does not fit"));
    };
    let Ok(mut card) = Cache::over(part, 2) else {
        return Err(anyhow!("the cache is not made"));
    };
    println!(rt; "a cache of 2 lines over a partition at 512 of an image")?;
    story(rt, &mut card, CELL, &[b'a'; 64], &[b'b'; 48])?;
    Ok(())
}

fn main(rt: HostRuntime) -> anyhow::Result<()> {
    on_image(&rt)?;
    on_sector_device(&rt)?;
    on_stack(&rt)
}
