//! What a console writes to the registers of a controller, and what it reads from them.
use check_code::CheckMode;
use controller::Call;
use sector::SizeCode;
use std::fmt;
use task_file::{
    Bay, CORRECTED, Command, DATA_REQUEST, ERROR, ReadMode, Register, Sdh, Selection, WriteMode,
};

/// The commands that a console gives: a plain read or write of one sector, and two of the drive.
#[derive(Clone, Copy, Debug)]
pub enum Order {
    Restore,
    Read,
    Write,
    Format,
}

impl From<Order> for u8 {
    // The byte of its command.
    fn from(order: Order) -> u8 {
        u8::from(match order {
            Order::Restore => Command::Restore,
            Order::Read => Command::Read(ReadMode {
                dma: false,
                multiple: false,
                long: false,
            }),
            Order::Write => Command::Write(WriteMode {
                multiple: false,
                long: false,
            }),
            Order::Format => Command::Format,
        })
    }
}

impl fmt::Display for Order {
    fn fmt<W: fmt::Write>(&self, f: &mut fmt::Formatter<W>) -> fmt::Result {
        let byte = u8::from(*self);
        write!(f, "{self:?} ({byte:02x}h)")
    }
}

/// SDH for a head of Winchester 1, and the sectors of records under ECC.
pub fn sdh(head: u8) -> u8 {
    Sdh {
        mode: CheckMode::Ecc,
        size: SizeCode::Bytes512,
        at: Selection {
            bay: Bay::Winchester1,
            head,
        },
    }
    .byte()
}

/// What the status says once a command has ended.
#[derive(Clone, Copy)]
pub struct Status(pub u8);

impl Status {
    /// The command failed.
    pub fn is_error(self) -> bool {
        self.0 & ERROR != 0
    }

    /// A sector was corrected.
    pub fn is_corrected(self) -> bool {
        self.0 & CORRECTED != 0
    }

    /// A byte is asked for: one that is offered, or one that is to be given.
    pub fn is_request(self) -> bool {
        self.0 & DATA_REQUEST != 0
    }
}

/// A read of a register.
pub fn read(register: Register) -> Call {
    Call::Read(u8::from(register))
}

/// A write to a register.
pub fn write(register: Register, byte: u8) -> Call {
    Call::Write(u8::from(register), byte)
}
