// Opens cards and says what they hold: the samples that it makes itself, good, empty, foreign
// and damaged ones, or card files.
//
//     cards               opens the samples
//     cards write DIR     writes the samples to files in DIR too
//     cards open FILE ..  opens card files
#![tactic(auto)]

mod samples;

use anyhow::{Context, bail};
use card::refusal::OpenRefusal;
use devices::image::Image;
use devices::memory::Memory;
use queue::fault::QueueFault;
use queue::queue::{HandedBack, Queue};
use samples::{Sample, samples};
use std::{env, fs, io};
use storage::refusal::Chain;
use storage::storage::Storage;

// The chain of a fault, from the queue down. The program `powercut` has the same three lines; a
// function for both would need a crate for it.
fn print_fault<G: Chain + Drop>(rt: &impl Print, fault: QueueFault<G>) -> io::Result<()> {
    print!(rt; " (queue {})", fault.call)?;
    for link in (0..usize::MAX).map_while(|i| fault.below.link(i)) {
        print!(rt; " {link}")?;
    }
    Ok(())
}

// Opens a card and says what it holds, in one line. Not by a Display of the refusal: the form of the
// line is this program's.
fn print_found<S: Storage + Drop>(rt: &impl Print, file: &str, storage: S) -> io::Result<()>
    requires { (S.Storage.means storage).in_order }
{
    print!(rt; "{file}: ")?;
    match Queue::open(storage) {
        Ok(queue) => { println!(rt; "ok {}", queue.count()) }
        Err(HandedBack { why, .. }) => {
            print!(rt; "no {}", why.number())?;
            match why {
                OpenRefusal::Gone(fault) => print_fault(rt, fault)?,
                OpenRefusal::NotAQueue => {}
                OpenRefusal::BrokenRecord(at) => print!(rt; " {at}")?,
            }
            println!(rt; "")
        }
    }
}

// Mounts the bytes of a card, and opens it. What a mount is lent beside them is made here, in the
// program: nothing below it allocates.
fn open_bytes(rt: &HostRuntime, file: &str, card: Vec<u8>) -> anyhow::Result<()> {
    let heap = rt.alloc();
    let size = card.len();
    let mut memory = Memory {
        durable: card,
        visible: vec![in heap; 0u8; size]?,
        torn: vec![in heap; false; size]?,
    };
    match Image::mount(memory.image_parts()) {
        Ok(image) => print_found(rt, file, image)?,
        Err(refused) => println!(rt; "{file}: no {}", refused.number())?,
    }
    Ok(())
}

fn open_samples(rt: &HostRuntime) -> anyhow::Result<()> {
    for sample in samples() {
        open_bytes(rt, sample.file, sample.card(rt.alloc())?)?;
    }
    Ok(())
}

fn write_samples(rt: &HostRuntime, dir: &str) -> anyhow::Result<()> {
    for sample in samples() {
        let card = sample.card(rt.alloc())?;
        let file = sample.file;
        let path = format!(in rt.alloc(); "{dir}/{file}")?;
        fs::write(rt, path.as_str(), card.as_slice())?;
    }
    Ok(())
}

fn main(rt: HostRuntime) -> anyhow::Result<()> {
    let mut args = env::args(&rt)?.skip(1);
    let Some(verb) = args.next() else {
        return open_samples(&rt);
    };
    match verb.as_str() {
        "write" => {
            let dir = args.next().context("write: name a folder")?;
            write_samples(&rt, dir.as_str())?;
            open_samples(&rt)
        }
        "open" => {
            for file in args {
                let card = fs::read(&rt, file.as_str())?;
                open_bytes(&rt, file.as_str(), card)?;
            }
            Ok(())
        }
        _ => bail!("cards [write DIR | open FILE ..]"),
    }
}
