// Plays a script from standard input on a disk in memory.
#![tactic(auto)]

use deals::{Office, Power};
use lines::tables::ROOM_WORDS;
use memdisk::{Due, Entry, MemDisk};
use pages::PAGE_WORDS;
use player::{Cuts, Player, Sink, Stage};
use script::{LineBuffer, Output};
use std::io;
use std::io::Write;

// Words of the disk, which has 1,024 pages.
const DISK: usize = 1_024 * PAGE_WORDS;

// How many old contents of pages the disk keeps.
const SAVED: usize = 240;

// How many cuts can be set.
const CUTS: usize = 64;

#[derive(Drop)]
struct Printer<'a> {
    rt: &'a HostRuntime,
    // nothing is printed after a failure
    result: io::Result<()>,
}

impl Sink for Printer<'_> {
    ghost said = { λ _ _ _. Unit {0} };

    fn put(&mut self, o: Output) {
        if self.result.is_ok() {
            self.result = self.rt.println(o);
        }
    }
}

// A script that is played line by line as its text is written here.
#[derive(Drop)]
struct Script<'a, D, S> {
    stage: Stage<'a, D, S>,
    player: Player<Office>,
    line: LineBuffer,
    // the lines that came before this one
    past: u64,
}

impl<D: Power + Cuts, S: Sink> Script<'_, D, S> {
    // A line that is too long for the buffer is longer than any command.
    fn end_line(&mut self) {
        self.past = self.past.saturating_add(1);
        match self.line.text() {
            Some(text) => self.player.play_line(self.past, text, &mut self.stage),
            None => self.stage.out.put(Output::BadLine(self.past)),
        }
        self.line.clear();
    }

    // The last line may have no end of its own.
    fn end(&mut self) {
        if !self.line.is_empty() {
            self.end_line();
        }
    }
}

impl<D: Power + Cuts, S: Sink> Write for Script<'_, D, S> {
    fn write(&mut self, text: &[u8]) -> io::Result<usize> {
        for b in text {
            if *b == b'\n' {
                self.end_line();
            } else {
                self.line.push(*b);
            }
        }
        Ok(text.len())
    }

    fn flush(&mut self) -> io::Result<()> {
        Ok(())
    }
}

fn main(rt: HostRuntime) -> io::Result<()> {
    let mut shown = [0u64; DISK];
    let mut saved = [Entry::BLANK; SAVED];
    let mut cuts = [Due::BLANK; CUTS];
    let mut room = [0u64; ROOM_WORDS];
    let mut disk = MemDisk::new(
        shown.as_mut_slice(),
        saved.as_mut_slice(),
        cuts.as_mut_slice(),
    );
    let mut printer = Printer {
        rt: &rt,
        result: Ok(()),
    };
    let mut stage = Stage::new(&mut disk, room.as_mut_slice(), &mut printer);
    let Some(player) = Player::<Office>::begin(&mut stage) else {
        // Nothing is played where the power went in each opening.
        return printer.result;
    };
    let mut script = Script {
        stage,
        player,
        line: LineBuffer::new(),
        past: 0,
    };
    io::copy(&mut rt.stdin(), &mut script)?;
    script.end();
    printer.result
}
