// Runs the readers, the casts and `over` at document 01's edges, and on both sides of each limit.
// The file `stdout` was worked out from the document; above each function stands how its lines follow.
#![tactic(auto)]

use floats::Load;
use std::fmt::Display;
use std::io;

// A line for each row: what the cast makes of the number.
fn casts<T: Display + Drop, F: Fn(f64) -> T>(
    rt: &impl Print,
    kind: &str,
    cast: F,
    rows: &[(&str, f64)],
) -> io::Result<()>
    requires { F.IsAlwaysCallable cast }
{
    for (name, x) in rows {
        let n = cast(*x);
        println!(rt; "{name} to {kind} {n}")?;
    }
    Ok(())
}

fn held(rt: &impl Print, name: &str, used: f64, available: f64) -> io::Result<()> {
    if floats::over(Load { used, available }) {
        println!(rt; "{name} over")
    } else {
        println!(rt; "{name} not over")
    }
}

fn bits(rt: &impl Print, name: &str, x: f64) -> io::Result<()> {
    let word = floats::f64_bits(x);
    println!(rt; "{name} has bits {word:016x}")
}

// "Casts truncate toward zero, stop at the ends of the range, NaN gives 0": u8 ends at 0 and 255.
fn to_u8(rt: &impl Print) -> io::Result<()> {
    let rows = [
        ("NaN", 0.0 / 0.0),
        ("-infinity", -1.0 / 0.0),
        ("-1", -1.0),
        ("-0.9", -0.9),
        ("0.9", 0.9),
        ("254.9", 254.9),
        ("255", 255.0),
        ("255.9", 255.9),
        ("256", 256.0),
        ("infinity", 1.0 / 0.0),
    ];
    casts(rt, "u8", floats::to_u8, &rows)
}

// u16 ends at 65535.
fn to_u16(rt: &impl Print) -> io::Result<()> {
    let rows = [
        ("NaN", 0.0 / 0.0),
        ("-1", -1.0),
        ("65534.9", 65534.9),
        ("65535.9", 65535.9),
        ("65536", 65536.0),
    ];
    casts(rt, "u16", floats::to_u16, &rows)
}

// u32 ends at 4294967295. 2^64 is where std's cast to 64 bits, of which this one is made, ends.
fn to_u32(rt: &impl Print) -> io::Result<()> {
    let rows = [
        ("NaN", 0.0 / 0.0),
        ("-1", -1.0),
        ("4294967294.9", 4294967294.9),
        ("4294967295.9", 4294967295.9),
        ("4294967296", 4294967296.0),
        ("2^64", 18446744073709551616.0),
        ("1e300", 1e300),
    ];
    casts(rt, "u32", floats::to_u32, &rows)
}

// i32 ends at -2147483648 and 2147483647.
fn to_i32(rt: &impl Print) -> io::Result<()> {
    let rows = [
        ("NaN", 0.0 / 0.0),
        ("-0.9", -0.9),
        ("2.7", 2.7),
        ("-2.7", -2.7),
        ("2147483646.9", 2147483646.9),
        ("2147483647.9", 2147483647.9),
        ("2147483648", 2147483648.0),
        ("infinity", 1.0 / 0.0),
        ("-2147483647.9", -2147483647.9),
        ("-2147483648", -2147483648.0),
        ("-2147483648.9", -2147483648.9),
        ("-2147483649", -2147483649.0),
        ("-1e300", -1e300),
        ("-infinity", -1.0 / 0.0),
    ];
    casts(rt, "i32", floats::to_i32, &rows)
}

// "A missing value reads as 0 for an amount."
fn amounts(rt: &impl Print) -> io::Result<()> {
    let rows = [
        ("amount 7", floats::amount(Some(7.0))),
        ("amount missing", floats::amount(None)),
    ];
    casts(rt, "u8", floats::to_u8, &rows)
}

// "Over: used > available + |available| × c, each operation rounded once." 10^9 × c rounds to 1, so the
// limits are 1000000001 and -999999999, and the next f64 above either is over.
fn over_billion(rt: &impl Print) -> io::Result<()> {
    held(rt, "1000000001 of 1000000000", 1000000001.0, 1000000000.0)?;
    held(
        rt,
        "1000000001.0000001 of 1000000000",
        1000000001.0000001,
        1000000000.0,
    )?;
    held(rt, "1000000002 of 1000000000", 1000000002.0, 1000000000.0)?;
    held(rt, "-999999999 of -1000000000", -999999999.0, -1000000000.0)?;
    held(
        rt,
        "-999999998.9999999 of -1000000000",
        -999999998.9999999,
        -1000000000.0,
    )
}

// Of a zero the limit is +0, whichever its sign; 5e-324 is the smallest f64 above.
fn over_zero(rt: &impl Print) -> io::Result<()> {
    held(rt, "0 of 0", 0.0, 0.0)?;
    held(rt, "5e-324 of 0", 5e-324, 0.0)?;
    held(rt, "0 of -0", 0.0, -0.0)?;
    held(rt, "5e-324 of -0", 5e-324, -0.0)
}

// -infinity + infinity × c is a NaN, and no comparison with a NaN is true.
fn over_infinity(rt: &impl Print) -> io::Result<()> {
    held(rt, "0 of -infinity", 0.0, -1.0 / 0.0)?;
    held(rt, "infinity of -infinity", 1.0 / 0.0, -1.0 / 0.0)?;
    held(rt, "infinity of infinity", 1.0 / 0.0, 1.0 / 0.0)?;
    held(rt, "infinity of 1", 1.0 / 0.0, 1.0)?;
    held(rt, "1 of NaN", 1.0, 0.0 / 0.0)?;
    held(rt, "NaN of 1", 0.0 / 0.0, 1.0)
}

// 1e-9 has the bits of c; a NaN is written as the quiet NaN without a sign; every u32 is exact.
fn written(rt: &impl Print) -> io::Result<()> {
    bits(rt, "1e-9", 1e-9)?;
    bits(rt, "-0", -0.0)?;
    bits(rt, "NaN", 0.0 / 0.0)?;
    bits(rt, "4294967295", floats::of_u32(4294967295))
}

// What is put reads back.
fn put(rt: &impl Print) -> io::Result<()> {
    let mut out = [0u8; 8];
    floats::put_f64(&mut out, 0, 1e-9);
    bits(rt, "1e-9 put and read", floats::f64_at(&out, 0))
}

// The largest finite f64, infinity, and the first and last NaN patterns.
fn read_f64(rt: &impl Print) -> io::Result<()> {
    let b =
        b"\xff\xff\xff\xff\xff\xff\xef\x7f\x00\x00\x00\x00\x00\x00\xf0\x7f\x01\x00\x00\x00\x00\x00\xf0\x7f\xff\xff\xff\xff\xff\xff\xff\xff";
    bits(rt, "7fefffffffffffff", floats::f64_at(b, 0))?;
    bits(rt, "7ff0000000000000", floats::f64_at(b, 8))?;
    bits(rt, "7ff0000000000001", floats::f64_at(b, 16))?;
    bits(rt, "ffffffffffffffff", floats::f64_at(b, 24))
}

// "f32 widened exactly": the digits of an f32 with 29 zeros behind them, and its exponent. The smallest
// f32, 2^-149; 0.1 in f32; the largest finite f32; infinity; the first NaN pattern.
fn read_f32(rt: &impl Print) -> io::Result<()> {
    let b = b"\x01\x00\x00\x00\xcd\xcc\xcc\x3d\xff\xff\x7f\x7f\x00\x00\x80\x7f\x01\x00\x80\x7f";
    bits(rt, "f32 00000001", floats::f32_wide_at(b, 0))?;
    bits(rt, "f32 3dcccccd", floats::f32_wide_at(b, 4))?;
    bits(rt, "f32 7f7fffff", floats::f32_wide_at(b, 8))?;
    bits(rt, "f32 7f800000", floats::f32_wide_at(b, 12))?;
    bits(rt, "f32 7f800001", floats::f32_wide_at(b, 16))
}

fn main(rt: HostRuntime) -> io::Result<()> {
    to_u8(&rt)?;
    to_u16(&rt)?;
    to_u32(&rt)?;
    to_i32(&rt)?;
    amounts(&rt)?;
    over_billion(&rt)?;
    over_zero(&rt)?;
    over_infinity(&rt)?;
    written(&rt)?;
    put(&rt)?;
    read_f64(&rt)?;
    read_f32(&rt)
}
