//! The board's numbers by their names: what the host writes, and what it sees. They are stated here
//! apart from the controller, and the tests below say that its own names have them.
use check_code::CheckMode::{self, Crc, Ecc};
use drive::SectorId;
use sector::SizeCode::{self, Bytes128, Bytes256, Bytes512, Bytes1024};
use task_file::Bay::{self, Floppy1, Winchester1};
use task_file::{Command, ReadMode, Register, Sdh, Selection, WriteMode, format_pair};

// The bits of the status, of which FAILED is Error.
pub use task_file::{BUSY, CORRECTED, DATA_REQUEST, ERROR as FAILED, PROTECTED, READY};

// The registers, and the first number that none has.
pub const DATA: u8 = 0;

pub const ERROR: u8 = 1;

pub const COUNT: u8 = 2;

pub const NUMBER: u8 = 3;

pub const CYLINDER_LOW: u8 = 4;

pub const CYLINDER_HIGH: u8 = 5;

pub const SDH: u8 = 6;

pub const STATUS: u8 = 7;

pub const COMMAND: u8 = 7;

pub const BEYOND: u8 = 8;

// The commands, of Restore and Seek the first and the last of sixteen; what is added to a Read or
// Write; and a byte that gives none.
pub const TEST: u8 = 0x90;

pub const RESTORE: u8 = 0x10;

pub const RESTORE_LAST: u8 = 0x1f;

pub const SEEK: u8 = 0x70;

pub const SEEK_LAST: u8 = 0x7f;

pub const FORMAT: u8 = 0x50;

pub const READ: u8 = 0x20;

pub const WRITE: u8 = 0x30;

pub const DMA: u8 = 8;

pub const MULTIPLE: u8 = 4;

pub const LONG: u8 = 2;

pub const UNKNOWN: u8 = 0xff;

// SDH: check code and size, of the first Winchester or the first floppy, to which a head is added;
// no drive has a bay for the others.
pub const CRC_256: u8 = 0x00;

pub const CRC_512: u8 = 0x20;

pub const CRC_1024: u8 = 0x40;

pub const CRC_128: u8 = 0x60;

pub const ECC_128: u8 = 0xe0;

pub const FLOPPY_CRC_128: u8 = 0x78;

pub const FLOPPY_ECC_128: u8 = 0xf8;

pub const WINCHESTER_2: u8 = 0x08;

pub const WINCHESTER_3: u8 = 0x10;

pub const FLOPPY_2: u8 = 0x1a;

pub const FLOPPY_3: u8 = 0x1c;

// The bits of the error register.
pub const BAD_BLOCK: u8 = 0x80;

pub const WRONG_DATA: u8 = 0x40;

pub const NO_ID: u8 = 0x10;

pub const ABORTED: u8 = 0x04;

pub const NO_DATA_MARK: u8 = 0x01;

// The layers of a fault, and the most attempts at a sector.
pub const CONTROLLER: u8 = 1;

pub const DRIVE: u8 = 2;

pub const CHECK_CODE: u8 = 3;

pub const TRIES: u8 = 9;

// The refusals of an access.
pub const NO_REGISTER: u8 = 1;

pub const IS_BUSY: u8 = 2;

pub const NO_REQUEST: u8 = 3;

pub const OPEN_REQUEST: u8 = 4;

pub const NO_COMMAND: u8 = 5;

// The registers, by the controller's names.
const REGISTERS: [(Register, u8); 8] = [
    (Register::Data, DATA),
    (Register::Error, ERROR),
    (Register::Count, COUNT),
    (Register::Number, NUMBER),
    (Register::CylinderLow, CYLINDER_LOW),
    (Register::CylinderHigh, CYLINDER_HIGH),
    (Register::Sdh, SDH),
    (Register::Status, STATUS),
];

// What SDH says: check code, size, bay and head.
const SAID: [(u8, CheckMode, SizeCode, Bay, u8); 12] = [
    (CRC_128, Crc, Bytes128, Winchester1, 0),
    (CRC_128 + 1, Crc, Bytes128, Winchester1, 1),
    (CRC_128 + 2, Crc, Bytes128, Winchester1, 2),
    (CRC_256 + 1, Crc, Bytes256, Winchester1, 1),
    (CRC_512 + 1, Crc, Bytes512, Winchester1, 1),
    (CRC_1024, Crc, Bytes1024, Winchester1, 0),
    (CRC_1024 + 1, Crc, Bytes1024, Winchester1, 1),
    (ECC_128, Ecc, Bytes128, Winchester1, 0),
    (ECC_128 + 1, Ecc, Bytes128, Winchester1, 1),
    (FLOPPY_CRC_128, Crc, Bytes128, Floppy1, 0),
    (FLOPPY_CRC_128 + 1, Crc, Bytes128, Floppy1, 1),
    (FLOPPY_ECC_128, Ecc, Bytes128, Floppy1, 0),
];

// The controller's names of registers, status bits, SDH and a format's pairs have these numbers.
#[test]
fn numbers(rt: HostRuntime) {
    for (register, number) in REGISTERS {
        assert_eq!(rt; u8::from(register), number);
        assert_eq!(rt; Register::try_from(number).map(u8::from), Ok(number));
    }
    let bits = [BUSY, READY, PROTECTED, DATA_REQUEST, CORRECTED, FAILED];
    assert_eq!(rt; bits, [0x80, 0x50, 0x20, 0x08, 0x04, 0x01]);
    for (byte, mode, size, bay, head) in SAID {
        let at = Selection { bay, head };
        let sdh = Sdh { mode, size, at };
        assert_eq!(rt; sdh.byte(), byte);
        assert_eq!(rt; Sdh::from_byte(byte), Some(sdh));
    }
    for byte in [WINCHESTER_2, WINCHESTER_3, FLOPPY_2, FLOPPY_3] {
        assert_eq!(rt; Sdh::from_byte(byte), None);
    }
    let pairs = [false, true].map(|bad| format_pair(SectorId { number: 9, bad }));
    assert_eq!(rt; pairs, [[0, 9], [0x80, 9]]);
}

// A read with these bits.
fn read(dma: bool, multiple: bool, long: bool) -> Command {
    Command::Read(ReadMode {
        dma,
        multiple,
        long,
    })
}

// A write with these bits.
fn write(multiple: bool, long: bool) -> Command {
    Command::Write(WriteMode { multiple, long })
}

// So do its names of commands. These are all that there are, each with a byte of its own, so that
// the byte tells which one came back.
#[test]
fn commands(rt: HostRuntime) {
    for (command, byte) in [
        (Command::Test, TEST),
        (Command::Restore, RESTORE),
        (Command::Seek, SEEK),
        (Command::Format, FORMAT),
        (read(false, false, false), READ),
        (read(false, false, true), READ + LONG),
        (read(false, true, false), READ + MULTIPLE),
        (read(false, true, true), READ + MULTIPLE + LONG),
        (read(true, false, false), READ + DMA),
        (read(true, false, true), READ + DMA + LONG),
        (read(true, true, false), READ + DMA + MULTIPLE),
        (read(true, true, true), READ + DMA + MULTIPLE + LONG),
        (write(false, false), WRITE),
        (write(false, true), WRITE + LONG),
        (write(true, false), WRITE + MULTIPLE),
        (write(true, true), WRITE + MULTIPLE + LONG),
    ] {
        assert_eq!(rt; u8::from(command), byte);
        assert_eq!(rt; Command::try_from(byte).map(u8::from), Ok(byte));
    }
}
