//! Images in use: refusals at the edges of each range, tracks of every kind, and what attempts make
//! of them. It has no code of its own.
#![tactic(auto)]

#[cfg(test)]
mod tests {
    use drive::{
        Drive, EmptyBay, FormatError, Geometry, NotReady, ReadError, SectorAddress, SectorBuffer,
        SectorId, WriteError,
    };
    use either::Either;
    use image::{Floppy, FloppyImage, Image, Make, Refused, Winchester, WinchesterImage, fitted};
    use sector::SizeCode;
    use std::alloc::Global;
    use std::process::Abort;
    use std::test::Fail;

    const fn geometry(cylinders: u16, heads: u8, capacity: u32) -> Geometry {
        Geometry {
            cylinders,
            heads,
            capacity,
        }
    }

    // Measures, the length of the memory, and the refusal's number, if it is one.
    #[derive(Clone, Copy)]
    struct Asked {
        geometry: Geometry,
        length: usize,
        number: Option<u8>,
    }

    // A row of the tables below, with 0 where nothing is refused.
    const fn row(cylinders: u16, heads: u8, capacity: u32, length: usize, number: u8) -> Asked {
        Asked {
            geometry: geometry(cylinders, heads, capacity),
            length,
            number: if number == 0 { None } else { Some(number) },
        }
    }

    fn number_of<D>(made: &Result<D, Refused>) -> Option<u8> {
        match made {
            Ok(_) => None,
            Err(refused) => Some(u8::from(refused.refusal)),
        }
    }

    // Asks for an image of one make by each row.
    fn ask<M: Make>(rt: &impl Abort, heap: Global, rows: &[Asked]) -> Result<(), Fail> {
        for asked in rows {
            let memory = vec![in heap; 0u8; asked.length]?;
            let made = Image::<M>::new(asked.geometry, false, memory);
            assert_eq!(rt; number_of(&made), asked.number);
            let drive = fitted(made);
            assert_eq!(rt; drive.is_ready(), asked.number.is_none());
            if drive.is_ready() {
                assert_eq!(rt; drive.geometry(), asked.geometry);
            }
        }
        Ok(())
    }

    #[test]
    fn winchester_refusals(rt: HostRuntime) -> Result<(), Fail> {
        let rows = [
            row(0, 1, 128, 514, 6),
            row(1, 1, 128, 514, 0),
            row(1024, 1, 128, 526336, 0),
            row(1025, 1, 128, 526850, 6),
            row(1, 0, 128, 514, 7),
            row(1, 8, 128, 4112, 0),
            row(1, 9, 128, 4626, 7),
            row(1, 1, 0, 386, 8),
            row(1, 1, 127, 513, 8),
            row(1, 1, 129, 515, 8),
            row(1, 1, 65536, 65922, 0),
            row(1, 1, 65664, 66050, 8),
            row(1, 1, 128, 513, 9),
            row(1, 1, 128, 515, 9),
            row(0, 0, 0, 0, 6),
            row(1, 0, 0, 0, 7),
            row(1, 1, 0, 0, 8),
        ];
        ask::<Winchester>(&rt, rt.alloc(), &rows)
    }

    #[test]
    fn floppy_refusals(rt: HostRuntime) -> Result<(), Fail> {
        let rows = [
            row(256, 2, 128, 263168, 0),
            row(257, 2, 128, 264196, 6),
            row(1, 3, 128, 1542, 7),
            row(1, 2, 128, 1028, 0),
            row(1, 2, 128, 514, 9),
        ];
        ask::<Floppy>(&rt, rt.alloc(), &rows)
    }

    const fn at(number: u8, size: SizeCode) -> SectorAddress {
        SectorAddress {
            head: 0,
            number,
            size,
        }
    }

    // The start of a record: count, size code, and the number and the mark of the first two
    // sectors; what a read of sector 7 of 256 bytes then answers, at a capacity of 512.
    #[derive(Clone, Copy)]
    struct Header {
        bytes: [u8; 6],
        answer: Result<(), ReadError>,
    }

    const fn begins(bytes: [u8; 6], answer: Result<(), ReadError>) -> Header {
        Header { bytes, answer }
    }

    // Reads sector 7 of a track whose record starts so, into a buffer of ones.
    fn read_under(rt: &impl Abort, heap: Global, header: Header) -> Result<(), Fail> {
        let mut memory = vec![in heap; 0u8; 898]?;
        assert!(rt; memory.len() == 898);
        memory[0..6].copy_from_slice(&header.bytes);
        let mut drive = fitted(WinchesterImage::new(geometry(1, 1, 512), false, memory));
        let mut buffer = SectorBuffer {
            bytes: [1; 1024],
            check: [1; 4],
        };
        let answer = drive.read(at(7, SizeCode::Bytes256), &mut buffer);
        assert_eq!(rt; answer, header.answer);
        assert_eq!(rt; buffer.bytes[255] == 0, header.answer.is_ok());
        assert_eq!(rt; buffer.bytes[256], 1);
        Ok(())
    }

    #[test]
    fn tracks(rt: HostRuntime) -> Result<(), Fail> {
        let rows = [
            begins([1, 0, 7, 0, 0, 0], Ok(())),
            begins([2, 0, 9, 0, 7, 0], Ok(())),
            begins([1, 0, 7, 0x80, 0, 0], Err(ReadError::BadBlock)),
            begins([2, 0, 7, 0x80, 7, 0], Err(ReadError::BadBlock)),
            begins([2, 0, 7, 0, 7, 0x80], Ok(())),
            begins([1, 0, 9, 0, 7, 0], Err(ReadError::NoId)),
            begins([1, 3, 7, 0, 0, 0], Err(ReadError::NoId)),
            begins([0, 0, 7, 0, 0, 0], Err(ReadError::NoId)),
            begins([65, 0, 7, 0, 0, 0], Err(ReadError::NoId)),
            begins([1, 4, 7, 0, 0, 0], Err(ReadError::NoId)),
            begins([1, 0, 7, 1, 0, 0], Err(ReadError::NoId)),
            begins([2, 0, 7, 0, 0, 0x81], Err(ReadError::NoId)),
            begins([3, 0, 7, 0, 0, 0], Err(ReadError::NoId)),
        ];
        for row in rows {
            read_under(&rt, rt.alloc(), row)?;
        }
        Ok(())
    }

    fn memory_of(drive: Either<FloppyImage, EmptyBay>) -> Vec<u8> {
        match drive {
            Either::Left(image) => image.into_memory(),
            Either::Right(empty) => empty.into_memory(),
        }
    }

    const fn id(number: u8, bad: bool) -> SectorId {
        SectorId { number, bad }
    }

    // Formats the track under head 0 with sector 5 twice, the second bad; before that, formats that
    // are refused.
    fn format<D: Drive>(rt: &impl Abort, drive: &mut D) {
        let ids = [id(5, false), id(5, true)];
        let check = [1, 2, 3, 4];
        let answer = drive.format(1, &ids, SizeCode::Bytes256, check);
        assert_eq!(rt; answer, Err(FormatError::BadHead));
        let answer = drive.format(0, &[], SizeCode::Bytes256, check);
        assert_eq!(rt; answer, Err(FormatError::BadCount));
        let answer = drive.format(0, &ids, SizeCode::Bytes512, check);
        assert_eq!(rt; answer, Err(FormatError::TooLong));
        let answer = drive.format(0, &ids, SizeCode::Bytes256, check);
        assert_eq!(rt; answer, Ok(()));
    }

    // Writes sixes to sector 5, with sevens as check bytes, and reads them into a buffer of eights.
    fn write_and_read<D: Drive>(rt: &impl Abort, drive: &mut D) {
        let mut buffer = SectorBuffer {
            bytes: [6; 1024],
            check: [7; 4],
        };
        let answer = drive.write(at(5, SizeCode::Bytes512), &buffer);
        assert_eq!(rt; answer, Err(WriteError::NoId));
        let answer = drive.write(at(5, SizeCode::Bytes256), &buffer);
        assert_eq!(rt; answer, Ok(()));
        buffer.bytes = [8; 1024];
        let answer = drive.read(at(5, SizeCode::Bytes256), &mut buffer);
        assert_eq!(rt; answer, Ok(()));
        assert!(rt; buffer.bytes[255] == 6 && buffer.bytes[256] == 8 && buffer.check[3] == 7);
    }

    // What the memory then has: a byte's place, and the byte. The record of cylinder 1 begins at
    // 898: its head, the first pair not used, the sectors' check bytes and the ends of their bytes.
    const WRITTEN: &[(usize, u8)] = &[
        (897, 9),
        (898, 2),
        (899, 0),
        (900, 5),
        (901, 0),
        (902, 5),
        (903, 0x80),
        (904, 9),
        (1028, 7),
        (1032, 1),
        (1036, 9),
        (1284, 6),
        (1539, 6),
        (1540, 0),
        (1795, 0),
    ];

    #[test]
    fn written_and_read_back(rt: HostRuntime) -> Result<(), Fail> {
        let memory = vec![in rt.alloc(); 9u8; 1796]?;
        let mut drive = fitted(FloppyImage::new(geometry(2, 1, 512), false, memory));
        let _ = drive.step_in();
        format(&rt, &mut drive);
        write_and_read(&rt, &mut drive);
        let memory = memory_of(drive);
        assert!(rt; memory.len() == 1796);
        for (place, byte) in WRITTEN {
            assert_eq!(rt; memory.get(*place).copied(), Some(*byte), "byte {place}");
        }
        Ok(())
    }

    #[test]
    fn protected(rt: HostRuntime) -> Result<(), Fail> {
        let memory = vec![in rt.alloc(); 0u8; 514]?;
        let mut drive = fitted(WinchesterImage::new(geometry(1, 1, 128), true, memory));
        let beyond = SectorAddress {
            head: 9,
            ..at(0, SizeCode::Bytes128)
        };
        assert_eq!(rt;
            drive.write(beyond, &SectorBuffer::zeroed()),
            Err(WriteError::Protected)
        );
        assert_eq!(rt;
            drive.format(9, &[], SizeCode::Bytes128, [0; 4]),
            Err(FormatError::Protected)
        );
        Ok(())
    }

    // Makes each call that needs a drive, with sixes in the buffer.
    fn not_ready<D: Drive>(rt: &impl Abort, drive: &mut D) {
        let mut buffer = SectorBuffer {
            bytes: [6; 1024],
            check: [6; 4],
        };
        let first = at(0, SizeCode::Bytes128);
        assert!(rt; !drive.is_ready());
        assert_eq!(rt; drive.geometry(), geometry(1, 1, 0));
        assert_eq!(rt; drive.step_in(), Err(NotReady));
        assert_eq!(rt; drive.step_out(), Err(NotReady));
        assert_eq!(rt; drive.read(first, &mut buffer), Err(ReadError::NotReady));
        assert_eq!(rt; drive.write(first, &buffer), Err(WriteError::NotReady));
        assert_eq!(rt;
            drive.format(0, &[id(0, false)], SizeCode::Bytes128, [0; 4]),
            Err(FormatError::NotReady)
        );
        assert!(rt; buffer.bytes == [6; 1024] && buffer.check == [6; 4]);
    }

    // An image that is refused leaves a bay without a drive, which gives the memory back.
    #[test]
    fn refused_images(rt: HostRuntime) -> Result<(), Fail> {
        let bytes = [9, 8, 7];
        for length in 0..=bytes.len() {
            let mut memory = Vec::new(rt.alloc());
            memory.extend_from_slice(&bytes[..length])?;
            let mut drive = fitted(FloppyImage::new(geometry(1, 1, 128), false, memory));
            not_ready(&rt, &mut drive);
            assert!(rt; drive.is_right());
            assert!(rt; memory_of(drive).as_slice() == &bytes[..length]);
        }
        Ok(())
    }

    // A bay without a drive and its clone keep the same bytes, each in a memory of its own.
    #[test]
    fn empty_bay_cloned(rt: HostRuntime) -> Result<(), Fail> {
        let bytes = [9, 8, 7].as_slice();
        let mut memory = Vec::new(rt.alloc());
        memory.extend_from_slice(bytes)?;
        let bay = EmptyBay::new(memory);
        let clone = bay.clone()?;
        assert!(rt; bay.into_memory().as_slice() == bytes);
        assert!(rt; clone.into_memory().as_slice() == bytes);
        Ok(())
    }
}
