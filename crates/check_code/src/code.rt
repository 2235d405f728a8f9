//! One interface for check codes, and what is computed through it.
ghost use Rattle.std.specs.Prelude.{◌≡◌, ℕ, ◌-◌, ◌*◌, ◌^◌};
ghost use Rattle.check_code.specs.Code.{Code, width as width_of, remainder_of, check_bytes_of, delivered_check, difference_of};
ghost use Rattle.check_code.specs.Laws.{Sound};
ghost use Rattle.check_code.specs.Aligned.{aligned, steps};

/// A check code, its register and polynomial given by `code`. Every law of it follows from `sound`,
/// as `laws_stand` says.
pub trait CheckCode {
    ghost code: { Code };

    ghost WIDTH: { ℕ };

    /// How many bits the register has.
    const WIDTH: u32;

    ghost START: { ℕ };

    /// What the register holds at the start.
    const START: u32;

    /// What eight shifts make of a byte at the top of the register, which stands at the top of 32
    /// bits.
    fn shifted(byte: u8) -> u32
        ensures { result ≡ steps (aligned code) 8 (byte * 2 ^ 24) };

    /// What 32 shifts make of a register at the top of 32 bits: what four bytes of zeros do to it.
    fn shifted_by_four(register: u32) -> u32
        ensures { result ≡ steps (aligned code) 32 register };

    /// What 64 shifts make of it: what eight bytes of zeros do to it.
    fn shifted_by_eight(register: u32) -> u32
        ensures { result ≡ steps (aligned code) 64 register };

    // The polynomial has the register's degree, and the start fits the register.
    ghost sound: { Sound code };

    // The two constants are the code's own.
    ghost width_is: { WIDTH ≡ width_of code };

    ghost start_is: { START ≡ code.start };
}

// The remainder after more bytes, from a remembered one on, at the top of 32 bits. Of eight bytes
// the first four enter beside all bits of the register, and are shifted 64 times with it; the last
// four are shifted 32 times, and what both leave is xored.
fn register_after<C: CheckCode>(from: u32, bytes: &[u8]) -> u32
    ensures { result
        ≡ remainder_of C.CheckCode.code from bytes.now * 2 ^ (32 - width_of C.CheckCode.code) }
{
    let mut register = from << (32 - C::WIDTH);
    let (eights, rest) = bytes.as_chunks::<8>();
    for eight in eights {
        let [a, b, c, d, e, f, g, h] = *eight;
        let first = u32::from_be_bytes([a, b, c, d]);
        let second = u32::from_be_bytes([e, f, g, h]);
        // the second word's entries are looked up first: they need not wait for the register
        register = C::shifted_by_four(second) ^ C::shifted_by_eight(register ^ first);
    }
    for byte in rest {
        register = (register << 8) ^ C::shifted((register >> 24) as u8 ^ *byte);
    }
    register
}

// The check that came in four check bytes.
fn delivered<C: CheckCode>(check: [u8; 4]) -> u32
    ensures { result ≡ delivered_check C.CheckCode.code check }
{
    u32::from_be_bytes(check) >> (32 - C::WIDTH)
}

/// The remainder after more bytes, from a remembered one on. Of a number that is wider than the
/// register only its low bits count.
pub fn remainder<C: CheckCode>(from: u32, bytes: &[u8]) -> u32
    ensures { result ≡ remainder_of C.CheckCode.code from bytes.now }
{
    register_after::<C>(from, bytes) >> (32 - C::WIDTH)
}

/// The four check bytes of a sector's bytes.
pub fn check_bytes<C: CheckCode>(bytes: &[u8]) -> [u8; 4]
    ensures { result ≡ check_bytes_of C.CheckCode.code bytes.now }
{
    register_after::<C>(C::START, bytes).to_be_bytes()
}

/// The difference of a delivered sector: its recomputed check xor its delivered check. A sector as
/// it was written has 0.
pub fn difference<C: CheckCode>(bytes: &[u8], check: [u8; 4]) -> u32
    ensures { result ≡ difference_of C.CheckCode.code bytes.now check }
{
    remainder::<C>(C::START, bytes) ^ delivered::<C>(check)
}
