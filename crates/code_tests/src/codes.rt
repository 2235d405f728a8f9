//! The codes against published values, and bursts at the edges of sectors of every size.
use burst::{CorrectionError, correct};
use check_code::{CheckCode, Crc, Ecc, check_bytes, difference, remainder};
use sector::{Burst, invert_burst};
use std::process::Abort;

// The check of a text, from the code's start on.
fn check_is<C: CheckCode>(rt: &impl Abort, text: &[u8], check: u32) {
    assert_eq!(rt; remainder::<C>(C::START, text), check);
}

// CRC-16/CCITT-FALSE values as they are published, and ECC values from a bit-by-bit register.
#[test]
fn known_values(rt: HostRuntime) {
    check_is::<Crc>(&rt, b"", 0xffff);
    check_is::<Crc>(&rt, b"A", 0xb915);
    check_is::<Crc>(&rt, b"123456789", 0x29b1);
    check_is::<Crc>(&rt, b"abc", 0x514a);
    check_is::<Crc>(&rt, &[b'A'; 256], 0xea0b);
    check_is::<Crc>(&rt, &[0; 512], 0x1634);
    check_is::<Ecc>(&rt, b"", 0xffff_ffff);
    check_is::<Ecc>(&rt, b"A", 0x572b_0cab);
    check_is::<Ecc>(&rt, b"123456789", 0xd839_40b8);
    check_is::<Ecc>(&rt, &[0; 512], 0x164b_4314);
}

// CRC fills two check bytes and leaves two zero, and ignores those two when it judges; ECC judges
// all four.
#[test]
fn check_bytes_and_judging(rt: HostRuntime) {
    let crc = check_bytes::<Crc>(b"123456789");
    assert_eq!(rt; crc, [0x29, 0xb1, 0, 0]);
    assert_eq!(rt; difference::<Crc>(b"123456789", [0x29, 0xb1, 7, 9]), 0);
    assert_eq!(rt; difference::<Crc>(b"123456789", [0x29, 0xb0, 0, 0]), 1);
    assert_eq!(rt;
        difference::<Ecc>(b"123456789", [0xd8, 0x39, 0x40, 0xb9]),
        1
    );
}

// A sector, of which so many bits are data, comes back from a burst.
fn mends(rt: &impl Abort, sector: &mut [u8], seam: u16, first: u16, pattern: u8) {
    let burst = Burst { first, pattern };
    sector.fill(0x5a);
    let mut delivered = check_bytes::<Ecc>(sector);
    invert_burst(sector, 0, burst);
    invert_burst(&mut delivered, seam, burst);
    assert_eq!(rt; correct(sector, delivered), Ok(Some(burst)));
    for byte in sector.iter() {
        assert_eq!(rt; *byte, 0x5a);
    }
}

// Both ends, the middle, and the seam of bytes and check bytes; in the last bits, patterns as short
// as the room that is left.
fn mends_at_the_edges(rt: &impl Abort, sector: &mut [u8], seam: u16) {
    for first in [
        0,
        1,
        seam / 2,
        seam.saturating_sub(5),
        seam.saturating_sub(3),
        seam.saturating_sub(1),
        seam,
        seam.saturating_add(27),
    ] {
        for pattern in [1u8, 17, 31] {
            mends(rt, sector, seam, first, pattern);
        }
    }
    for (room, pattern) in [(4u16, 15u8), (3, 5), (2, 3), (1, 1)] {
        mends(
            rt,
            sector,
            seam,
            seam.saturating_add(32u16.saturating_sub(room)),
            pattern,
        );
    }
}

#[test]
fn bursts_at_the_edges(rt: HostRuntime) {
    mends_at_the_edges(&rt, &mut [0; 128], 1024);
    mends_at_the_edges(&rt, &mut [0; 256], 2048);
    mends_at_the_edges(&rt, &mut [0; 512], 4096);
    mends_at_the_edges(&rt, &mut [0; 1024], 8192);
}

// Two bursts far apart are no burst; a length that no sector has is refused.
#[test]
fn what_is_not_mended(rt: HostRuntime) {
    let mut sector = [0u8; 128];
    let written = check_bytes::<Ecc>(&sector);
    assert_eq!(rt; correct(&mut sector, written), Ok(None));
    invert_burst(
        &mut sector,
        0,
        Burst {
            first: 3,
            pattern: 1,
        },
    );
    invert_burst(
        &mut sector,
        0,
        Burst {
            first: 700,
            pattern: 1,
        },
    );
    assert_eq!(rt;
        correct(&mut sector, written),
        Err(CorrectionError::Uncorrectable)
    );
    assert_eq!(rt; sector[0], 0x10);
    let mut odd = [0u8; 100];
    assert_eq!(rt;
        correct(&mut odd, written),
        Err(CorrectionError::UnknownSize)
    );
}
