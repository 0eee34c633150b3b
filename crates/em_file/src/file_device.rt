//! A file as a device. Block k stands at byte 32·B·k, as `bytes` lays it out.
ghost use Rattle.std.specs.Prelude.{◌≡◌, ◌↔◌, ◌<◌, ◌≤◌, ◌^◌, [], length, IsTrue, OnOk};
ghost use Rattle.em_file.specs.Bytes.{bytes_of, offset_of};
ghost use Rattle.em_file.specs.File.{after_begin, after_move, untold_device};

use crate::bytes::{RECORD_BYTES, decode, encode};
use crate::scratch_file::{open_empty, read_at, write_at};
use em_frames::{BeginFault, Device};
use em_record::{Failed, Record};
use std::alloc::Global;
use std::fs::Files;
use std::io;
use std::marker::Model;

/// A device whose blocks stand in one file. It tells nothing of what they hold, and its memory is
/// the bytes of one block.
#[derive(Drop)]
pub struct FileDevice<'p, R: Files> {
    rt: &'p R,
    alloc: Global,
    path: &'p str,
    file: Option<R::File>,
    buffer: Vec<u8>,
    block: u64,
    blocks: u64,
    faults: u64,
    moves: u64,
}

impl<'p, R: Files> Model for FileDevice<'p, R> {
    ghost use Rattle.std.specs.Prelude.{is_some};
    ghost use Rattle.em_file.specs.File.{FileState, IsReady};

    ghost Value = { FileState };

    ghost view = { λ d. record {
      blocks = d.blocks;
      block = d.block;
      buffer = d.buffer.items;
      faults = d.faults;
      moves = d.moves;
    } };

    ghost invariant = { λ d. IsReady d.blocks d.block d.moves (is_some d.file) d.buffer };
}

impl<'p, R: Files> FileDevice<'p, R> {
    /// A device that wasn't begun, over the file at `path`. Nothing is opened before `begin`.
    pub fn new(rt: &'p R, alloc: Global, path: &'p str) -> FileDevice<'p, R>
        ensures { result ≡ record { blocks = 0; block = 0; buffer = []; faults = 0; moves = 0 } }
    {
        FileDevice {
            rt,
            alloc,
            path,
            file: None,
            buffer: Vec::new(alloc),
            block: 0,
            blocks: 0,
            faults: 0,
            moves: 0,
        }
    }

    /// Whether `begin` ended with Ok. Then the file was made, and whoever made the device may remove it.
    pub fn is_begun(&self) -> bool
        ensures { IsTrue result ↔ 0 < self.now.blocks }
    {
        self.blocks > 0
    }

    /// The number of block moves, failed ones too. At 2^64 - 1 it stays.
    pub fn moves(&self) -> u64
        ensures { result ≡ self.now.moves }
    {
        self.moves
    }

    /// The number of calls that failed. At 2^64 - 1 it stays.
    pub fn faults(&self) -> u64
        ensures { result ≡ self.now.faults }
    {
        self.faults
    }

    /// The byte of the file at which block `at` begins.
    fn offset(&self, at: u64) -> u64
        requires { at < self.now.blocks }
        ensures { result ≡ offset_of self.now.block at }
    {
        RECORD_BYTES as u64 * self.block * at
    }

    /// Counts a move, and a fault if the call on the file failed.
    fn count_move(&mut self, outcome: io::Result<()>) -> Result<(), Failed>
        requires { 0 < self.old.blocks }
        ensures faults { self.old.faults ≤ self.new.faults }
        ensures after { self.new ≡ after_move result self.old.buffer self.old }
    {
        self.moves = self.moves.saturating_add(1);
        match outcome {
            Ok(()) => Ok(()),
            Err(_) => {
                self.faults = self.faults.saturating_add(1);
                Err(Failed)
            }
        }
    }
}

impl<'p, R: Files> Device for FileDevice<'p, R> {
    ghost state = { untold_device };

    /// Makes the file. If one is there, its name is taken away first. `NoMemory`: there was no memory for the
    /// bytes of one block, and the file wasn't touched.
    fn begin(&mut self, block: u32, blocks: u64) -> Result<(), BeginFault>
        requires fresh { self.old.blocks ≡ 0 }
        requires block_low { 128 ≤ block }
        requires block_high { block ≤ 65536 }
        requires blocks_low { 0 < blocks }
        requires blocks_high { blocks ≤ 2 ^ 40 }
        ensures none_yet { self.old.moves ≡ 0 }
        ensures faults { self.old.faults ≤ self.new.faults }
        ensures after { self.new ≡ after_begin result block blocks self.old }
    {
        let Ok(buffer) = vec![in self.alloc; 0; RECORD_BYTES * block as usize] else {
            self.faults = self.faults.saturating_add(1);
            return Err(BeginFault::NoMemory);
        };
        let Ok(file) = open_empty(self.rt, self.path) else {
            self.faults = self.faults.saturating_add(1);
            return Err(BeginFault::Failed);
        };
        self.file = Some(file);
        self.buffer = buffer;
        self.block = u64::from(block);
        self.blocks = blocks;
        Ok(())
    }

    /// What lies past the file's end reads as zeros.
    fn read(&mut self, at: u64, into: &mut [Record]) -> Result<(), Failed>
        requires at { at < self.old.blocks }
        requires len { length into.old ≡ self.old.block }
        ensures faults { self.old.faults ≤ self.new.faults }
        ensures after { self.new ≡ after_move result self.new.buffer self.old }
        ensures bytes { OnOk result (bytes_of into.new ≡ self.new.buffer) }
    {
        let offset = self.offset(at);
        let outcome = read_at(&mut self.file, offset, &mut self.buffer);
        self.count_move(outcome)?;
        decode(&self.buffer, into);
        Ok(())
    }

    fn write(&mut self, at: u64, from: &[Record]) -> Result<(), Failed>
        requires at { at < self.old.blocks }
        requires len { length from.now ≡ self.old.block }
        ensures faults { self.old.faults ≤ self.new.faults }
        ensures after { self.new ≡ after_move result self.new.buffer self.old }
        ensures bytes { self.new.buffer ≡ bytes_of from.now }
    {
        encode(from, &mut self.buffer);
        let offset = self.offset(at);
        let outcome = write_at(&mut self.file, offset, &self.buffer);
        self.count_move(outcome)
    }
}
