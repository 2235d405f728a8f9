//! Bytes that move between the host and the buffer.
ghost use Rattle.std.specs.Prelude.{◌≡◌};
ghost use Rattle.sector.specs.Sizes.{bytes_of};
ghost use Rattle.task_file.specs.Sdh.{size_at};
ghost use Rattle.task_file.specs.Moving.{byte_at, with_byte, moved_length, load_is_long, all_drawn, offered, drawn, checked, filled, put};

use super::command::ReadMode;
use super::state::{Job, Load, Phase, ReadJob, State, WriteJob};
use drive::SectorBuffer;
use sector::SizeCode;

// How many bytes move for a sector: its own, and four check bytes where L is 1.
fn moved_length(size: SizeCode, long: bool) -> u16
    ensures { result ≡ moved_length size long }
{
    let bytes = size.bytes() as u16;
    if long { bytes + 4 } else { bytes }
}

// The byte of the buffer that moves at a place: the sector's bytes first, as many as the size says,
// then the check bytes.
fn byte_at(buffer: &SectorBuffer, size: SizeCode, at: u16) -> u8
    ensures { result ≡ byte_at buffer.now (bytes_of size) at }
{
    let at = at as usize;
    let bytes = size.bytes();
    if at < bytes {
        return buffer.bytes[at];
    }
    buffer.check.get(at - bytes).copied().unwrap_or(0)
}

// Puts a byte into the buffer at a place, counted as in `byte_at`; past the check bytes it is
// dropped.
fn put_at(buffer: &mut SectorBuffer, size: SizeCode, at: u16, byte: u8)
    ensures { buffer.new ≡ with_byte buffer.old (bytes_of size) at byte }
{
    let at = at as usize;
    let bytes = size.bytes();
    if at < bytes {
        buffer.bytes[at] = byte;
    } else if at - bytes < 4 {
        buffer.check[at - bytes] = byte;
    }
}

impl State {
    // The last byte offered was drawn: the next sector of a multiple read begins, or the read is
    // over.
    fn finish_drawing(&mut self, mode: ReadMode)
        ensures { self.new ≡ all_drawn self.old mode }
    {
        if mode.multiple && self.registers.count != 0 {
            self.phase = Phase::Busy(Job::Read(ReadJob::first(mode)));
        } else {
            self.phase = Phase::Rest;
            if mode.dma {
                self.intrq = true;
            }
        }
    }

    // The byte that is offered goes out, wherever it stands; where none is, 0 does.
    #[inline(never)]
    #[tactic(auto, unfolding(crate::specs::Moving::drawn_at))]
    fn draw_anywhere(&mut self) -> u8
        ensures byte { result ≡ offered self.old }
        ensures after { self.new ≡ drawn self.old }
    {
        let Phase::Offering(mode, at) = self.phase else {
            return 0;
        };
        let size = self.registers.size();
        let byte = byte_at(&self.buffer, size, at);
        if at < moved_length(size, mode.long) - 1 {
            self.phase = Phase::Offering(mode, at + 1);
        } else {
            self.finish_drawing(mode);
        }
        byte
    }

    /// The byte that is offered goes out; where none is, 0 does. Before the sector's last byte
    /// nothing but the place changes.
    #[inline(always)]
    #[tactic(auto, unfolding(crate::specs::Moving::drawn_at))]
    pub fn draw(&mut self) -> u8
        ensures byte { result ≡ offered self.old }
        ensures after { self.new ≡ drawn self.old }
    {
        let last = self.registers.size().bytes() - 1;
        if let Phase::Offering(_, at) = &mut self.phase {
            let place = *at as usize;
            if place < last {
                *at += 1;
                return self.buffer.bytes[place];
            }
        }
        self.draw_anywhere()
    }

    // The check bytes of a plain write are made of its bytes.
    fn add_check(&mut self)
        ensures { self.new ≡ checked self.old }
    {
        let bytes = self.buffer.sector(self.registers.size());
        self.buffer.check = self.registers.mode().bytes_for(bytes);
    }

    // The last byte was taken: the sector or the track is to be written.
    fn finish_taking(&mut self, load: Load)
        ensures { self.new ≡ filled self.old load }
    {
        match load {
            Load::Sector(mode) => {
                if !mode.long {
                    self.add_check();
                }
                self.phase = Phase::Busy(Job::Write(WriteJob { mode, attempts: 0 }));
            }
            Load::Track => self.phase = Phase::Busy(Job::Format),
        }
    }

    // A byte comes in, wherever it goes; where none is asked for, it is dropped.
    #[inline(never)]
    #[tactic(auto, unfolding(crate::specs::Moving::put_at))]
    fn put_anywhere(&mut self, byte: u8)
        ensures { self.new ≡ put self.old byte }
    {
        let Phase::Taking(load, at) = self.phase else {
            return;
        };
        let size = self.registers.size();
        put_at(&mut self.buffer, size, at, byte);
        if at < moved_length(size, load.is_long()) - 1 {
            self.phase = Phase::Taking(load, at + 1);
        } else {
            self.finish_taking(load);
        }
    }

    /// A byte comes in; where none is asked for, it is dropped. Before the sector's last byte
    /// nothing but the buffer and the place changes.
    #[inline(always)]
    #[tactic(auto, unfolding(crate::specs::Moving::put_at))]
    pub fn put(&mut self, byte: u8)
        ensures { self.new ≡ put self.old byte }
    {
        let last = self.registers.size().bytes() - 1;
        if let Phase::Taking(_, at) = &mut self.phase {
            let place = *at as usize;
            if place < last {
                *at += 1;
                self.buffer.bytes[place] = byte;
                return;
            }
        }
        self.put_anywhere(byte);
    }
}

impl Load {
    // Whether the host gives check bytes too.
    fn is_long(self) -> bool
        ensures { result ≡ load_is_long self }
    {
        match self {
            Load::Sector(mode) => mode.long,
            Load::Track => false,
        }
    }
}
