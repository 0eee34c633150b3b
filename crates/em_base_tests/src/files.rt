//! Records as bytes, and blocks that are written to a file and read back. A block has 128 records, which
//! are 4096 bytes. Each test works in a folder of its own name in the current one.
ghost use Rattle.std.specs.Prelude.{◌≡◌, ◌<◌, IfOk, vec_len};
ghost use Rattle.em_base_tests.specs.Small.{IsSmall};

use crate::words::words;
use em_file::{FileDevice, decode, encode};
use em_frames::{BeginFault, Device};
use em_record::Record;
use std::os::unix::fs::{MetadataExt, symlink};
use std::test::Fail;
use std::{fs, io};

const FIRST: Record = Record {
    a: 1,
    b: 2,
    c: 3,
    d: 258,
};

const OTHER: Record = Record {
    a: 7,
    b: 7,
    c: 7,
    d: 7,
};

/// 258 is 2 + 256, so its bytes begin with 2 and 1.
const FIRST_BYTES: &[u8] =
    b"\x01\0\0\0\0\0\0\0\x02\0\0\0\0\0\0\0\x03\0\0\0\0\0\0\0\x02\x01\0\0\0\0\0\0";

const OTHER_BYTES: &[u8] =
    b"\x07\0\0\0\0\0\0\0\x07\0\0\0\0\0\0\0\x07\0\0\0\0\0\0\0\x07\0\0\0\0\0\0\0";

#[test]
fn records_are_their_words_from_the_least_byte(rt: HostRuntime) {
    let records = [words(1, 2, 3, 258), words(u64::MAX, 0, 0, 1 << 56)];
    let wanted = *b"\x01\0\0\0\0\0\0\0\x02\0\0\0\0\0\0\0\x03\0\0\0\0\0\0\0\x02\x01\0\0\0\0\0\0\
        \xff\xff\xff\xff\xff\xff\xff\xff\0\0\0\0\0\0\0\0\0\0\0\0\0\0\0\0\0\0\0\0\0\0\0\x01";
    let mut bytes = [9; 64];
    encode(&records, &mut bytes);
    assert_eq!(rt; bytes, wanted);
    let mut back = [Record::ZERO; 2];
    decode(&wanted, &mut back);
    assert_eq!(rt; back, records);
}

/// Makes an empty folder of this name.
fn make(rt: &HostRuntime, name: &str) -> io::Result<()> {
    let _missing = fs::remove_dir_all(rt, name);
    fs::create_dir(rt, name)
}

/// A device of 4 blocks at this path.
fn begun<'a>(rt: &'a HostRuntime, path: &'a str) -> Result<FileDevice<'a, HostRuntime>, BeginFault>
    ensures { IfOk result IsSmall }
{
    let mut device = FileDevice::new(rt, rt.alloc(), path);
    device.begin(128, 4)?;
    Ok(device)
}

/// Writes a block of 128 records, of which the first is `FIRST` and the others are `OTHER`.
fn write(device: &mut FileDevice<'_, HostRuntime>, rt: &HostRuntime, at: u64) -> Result<(), Fail>
    requires small { IsSmall device.old }
    requires at { at < 4 }
    ensures { IsSmall device.new }
{
    let mut block = vec![in rt.alloc(); OTHER; 128]?;
    block[0] = FIRST;
    device.write(at, &block)?;
    Ok(())
}

/// Reads a block into one that held other records.
fn read(
    device: &mut FileDevice<'_, HostRuntime>,
    rt: &HostRuntime,
    at: u64,
) -> Result<Vec<Record>, Fail>
    requires small { IsSmall device.old }
    requires at { at < 4 }
    ensures small { IsSmall device.new }
    ensures len { IfOk result (λ block. vec_len block ≡ 128) }
{
    let mut block = vec![in rt.alloc(); OTHER; 128]?;
    device.read(at, &mut block)?;
    Ok(block)
}

/// The file ends after block 2, so it has 3 * 4096 bytes.
#[test]
fn a_block_is_read_back(rt: HostRuntime) -> Result<(), Fail> {
    make(&rt, "back")?;
    let mut device = begun(&rt, "back/blocks")?;
    write(&mut device, &rt, 2)?;
    let back = read(&mut device, &rt, 2)?;
    assert_eq!(rt; (back[0], back[1], back[127]), (FIRST, OTHER, OTHER));
    let past = read(&mut device, &rt, 3)?;
    assert_eq!(rt; (past[0], past[127]), (Record::ZERO, Record::ZERO));
    assert!(rt; device.is_begun());
    assert_eq!(rt; (device.moves(), device.faults()), (3, 0));
    assert_eq!(rt; fs::metadata(&rt, "back/blocks")?.len(), 12288);
    fs::remove_dir_all(&rt, "back")?;
    Ok(())
}

/// Block 2 begins at byte 2 * 4096 = 8192. Its last record begins at byte 8192 + 127 * 32 = 12256. Only
/// the owner may read and write the file.
#[test]
fn a_block_stands_at_its_offset(rt: HostRuntime) -> Result<(), Fail> {
    make(&rt, "offset")?;
    let mut device = begun(&rt, "offset/blocks")?;
    assert_eq!(rt; fs::metadata(&rt, "offset/blocks")?.mode() & 0o777, 0o600);
    write(&mut device, &rt, 2)?;
    let bytes = fs::read(&rt, "offset/blocks")?;
    assert_eq!(rt; bytes.get(8160..8192), Some([0; 32].as_slice()));
    assert_eq!(rt; bytes.get(8192..8224), Some(FIRST_BYTES));
    assert_eq!(rt; bytes.get(8224..8256), Some(OTHER_BYTES));
    assert_eq!(rt; bytes.get(12256..), Some(OTHER_BYTES));
    fs::remove_dir_all(&rt, "offset")?;
    Ok(())
}

/// Other bytes stand in the file before it is begun. It is cut 40 bytes into block 1: after its record 0 and
/// one word of its record 1.
#[test]
fn a_file_is_emptied_and_a_cut_block_ends_in_zeros(rt: HostRuntime) -> Result<(), Fail> {
    make(&rt, "cut")?;
    fs::write(&rt, "cut/blocks", b"other bytes".as_slice())?;
    let mut device = begun(&rt, "cut/blocks")?;
    assert_eq!(rt; fs::metadata(&rt, "cut/blocks")?.len(), 0);
    write(&mut device, &rt, 1)?;
    fs::OpenOptions::new()
        .write(true)
        .open(&rt, "cut/blocks")?
        .set_len(4136)?;
    let block = read(&mut device, &rt, 1)?;
    assert_eq!(rt; (block[0], block[1]), (FIRST, words(7, 0, 0, 0)));
    assert_eq!(rt; (block[2], block[127]), (Record::ZERO, Record::ZERO));
    fs::remove_dir_all(&rt, "cut")?;
    Ok(())
}

#[test]
fn a_missing_folder_a_link_and_a_folder_are_refused(rt: HostRuntime) -> Result<(), Fail> {
    make(&rt, "links")?;
    fs::write(&rt, "links/kept", b"kept".as_slice())?;
    symlink(&rt, "kept", "links/link")?;
    symlink(&rt, "nowhere", "links/dangling")?;
    for path in ["missing/blocks", "links/link", "links/dangling", "links"] {
        let mut device = FileDevice::new(&rt, rt.alloc(), path);
        assert_eq!(rt; device.begin(128, 4), Err(BeginFault::Failed));
        assert_eq!(rt;
            (device.is_begun(), device.moves(), device.faults()),
            (false, 0, 1)
        );
    }
    assert_eq!(rt; fs::metadata(&rt, "links/kept")?.len(), 4);
    assert!(rt; !fs::exists(&rt, "links/nowhere")?);
    fs::remove_dir_all(&rt, "links")?;
    Ok(())
}
