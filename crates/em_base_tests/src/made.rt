//! Made texts, read in pieces and whole, and tallies of them.
ghost use Rattle.std.specs.Prelude.{◌≡◌, ◌<◌, ◌≤◌, ◌^◌, false};

use em_gen::{GenKind, GenShelf, Tally};
use em_io::{Shelf, Sink, Slot, send};
use std::alloc::Global;
use std::test::Fail;

/// Opens a slot and reads its text to the end, in pieces of at most 7 bytes.
fn read_all<H: Shelf>(alloc: Global, shelf: &mut H, slot: Slot) -> Result<Vec<u8>, Fail>
    requires { ((H.stand shelf.old).slot slot).opened ≡ false }
{
    let mut text = Vec::new(alloc);
    shelf.open(slot, "no file")?;
    for _ in 0..20_000_u64 {
        let mut piece = [0; 7];
        let count = shelf.read(slot, &mut piece)?;
        if count == 0 {
            break;
        }
        text.extend_from_slice(&piece[..count])?;
    }
    Ok(text)
}

/// Whether the text of a slot of a new shelf has this length, and begins with these bytes.
fn is_made(
    alloc: Global,
    kind: GenKind,
    numbers: (u64, u64),
    slot: Slot,
    len: usize,
    front: &[u8],
) -> Result<bool, Fail>
    requires some { 0 < numbers.1 }
    requires most { numbers.1 ≤ 2 ^ 30 }
{
    let (start, count) = numbers;
    let mut shelf = GenShelf::new(kind, start, count);
    let text = read_all(alloc, &mut shelf, slot)?;
    Ok(text.len() == len && text.starts_with(front))
}

/// The commands of the first draws from 1, by hand: 16838, 5758, 10113 and so on. Modulo 8 a wide draw is
/// its second draw.
const MAP: &[u8] = b"put 1 1\nget 3\nput 4 3\nput 7 4\ndel 1\nget 7\nput 6 7\nput 7 8\n";

const QUEUE: &[u8] = b"push 1 1\npush 3 2\npush 4 3\npush 7 4\npop\npush 7 6\npush 6 7\npush 7 8\n";

const STAB: &[u8] = b"iv 1 7\niv 3 14\niv 4 6\niv 7 13\nstab 1\niv 7 14\niv 6 7\niv 7 9\n";

/// A circuit of two gates: the header, 16 inputs, 16 latches, 16 outputs, and the gates of the
/// variables 33 and 34.
const CIRCUIT: &[u8] =
    b"aag 34 16 16 16 2\n2\n4\n6\n8\n10\n12\n14\n16\n18\n20\n22\n24\n26\n28\n30\n32\n\
34 42\n36 69\n38 5\n40 49\n42 12\n44 39\n46 32\n48 33\n50 65\n52 2\n54 66\n56 41\n58 30\n60 13\n\
62 62\n64 47\n54\n35\n5\n64\n32\n3\n62\n13\n10\n24\n65\n64\n3\n61\n5\n42\n66 17 23\n68 66 22\n";

/// The eight steps of its stimulus. Draws of a stimulus begin one after the start.
const STIMULUS: &[u8] = b"0110110101110110\n1001010010011011\n0010110001100110\n1110001011011110\n\
1001100101111010\n1011110001111110\n1110011010100010\n0110000110101111\n";

/// A start counts modulo 2^31, and command files have no second text.
#[test]
fn eight_commands_of_each_kind(rt: HostRuntime) -> Result<(), Fail> {
    let alloc = rt.alloc();
    assert!(rt; is_made(alloc, GenKind::Map, (1, 8), Slot::First, 58, MAP)?);
    assert!(rt; is_made(alloc, GenKind::Map, (2147483649, 8), Slot::First, 58, MAP)?);
    assert!(rt; is_made(alloc, GenKind::Map, (1, 8), Slot::Second, 0, b"")?);
    assert!(rt; is_made(alloc, GenKind::Queue, (1, 8), Slot::First, 67, QUEUE)?);
    assert!(rt; is_made(alloc, GenKind::Stab, (1, 8), Slot::First, 59, STAB)?);
    Ok(())
}

/// The greatest state of the draws goes back to 0 for a stimulus, of which a line has 17 bytes.
#[test]
fn a_circuit_and_its_stimulus(rt: HostRuntime) -> Result<(), Fail> {
    let alloc = rt.alloc();
    assert!(rt; is_made(alloc, GenKind::Eval, (1, 2), Slot::First, 218, CIRCUIT)?);
    assert!(rt; is_made(alloc, GenKind::Eval, (1, 2), Slot::Second, 136, STIMULUS)?);
    let first = b"0001011100101011\n";
    assert!(rt;
        is_made(
            alloc,
            GenKind::Eval,
            (2147483647, 2),
            Slot::Second,
            136,
            first
        )?
    );
    Ok(())
}

/// The answers of the map's eight commands: 45 + 10 + 52 + 10 is 117. Nothing has no number. Of the
/// circuit of 1000 gates from 7 another program counted the bytes.
#[test]
fn a_tally_counts_lines_and_bytes(rt: HostRuntime) -> Result<(), Fail> {
    let mut tally = Tally::new();
    send(&mut tally, b"")?;
    assert_eq!(rt; (tally.lines(), tally.bytes(), tally.sum()), (0, 0, 0));
    assert_eq!(rt; tally.write(b"-\n4\n"), Ok(4));
    assert_eq!(rt; (tally.lines(), tally.bytes(), tally.sum()), (2, 4, 117));
    let mut tally = Tally::new();
    let mut shelf = GenShelf::new(GenKind::Eval, 7, 1000);
    let text = read_all(rt.alloc(), &mut shelf, Slot::First)?;
    send(&mut tally, text.as_slice())?;
    let numbers = (tally.lines(), tally.bytes(), tally.sum());
    assert_eq!(rt; numbers, (1049, 12710, 576518));
    Ok(())
}
