//! Values that were worked out apart from the program.
use crate::rows::{behind, expect, int, numbers, word};
use fixed_angle::{Kind, PlayTables, aprox_distance, fixed_div, fixed_mul, slope_div};
use std::alloc::{AllocError, Global};
use std::process::Abort;
use std::test::Fail;

/// A function of two numbers.
#[derive(Clone, Copy)]
enum Function {
    Product,
    Quotient,
    Slope,
    Length,
}

fn value_of(function: Function, row: &[i64]) -> i64 {
    let (a, b) = (int(row, 0), int(row, 1));
    match function {
        Function::Product => i64::from(fixed_mul(a, b)),
        Function::Quotient => i64::from(fixed_div(a, b)),
        Function::Slope => i64::from(slope_div(word(row, 0), word(row, 1))),
        Function::Length => i64::from(aprox_distance(a, b)),
    }
}

/// Each row has two numbers and the value.
fn expect_values(
    rt: &impl Abort,
    alloc: Global,
    function: Function,
    rows: &str,
) -> Result<(), Fail> {
    for line in rows.lines() {
        let row = numbers(alloc, line)?;
        expect(rt, line, &[value_of(function, &row)], behind(&row, 2));
    }
    Ok(())
}

const PRODUCTS: &str = "\
0 0 0
65536 65536 65536
-65536 65536 -65536
98304 -163840 -245760
1 1 0
-1 1 -1
-1 -1 0
1 -65537 -2
-2147483648 -2147483648 0
-2147483648 2147483647 32768
2147483647 2147483647 -65536
-2147483648 1 -32768
-2147483648 -65536 -2147483648
2147483647 -1 -32768
123456789 -987654321 -823458816";

const QUOTIENTS: &str = "\
0 0 2147483647
0 65536 0
65536 65536 65536
-65536 196608 -21845
65536 -196608 -21845
-7 131072 -3
7 -131072 -3
1 0 2147483647
-1 0 -2147483648
-2147483648 0 -2147483648
-2147483648 -1 2147483647
-2147483648 1 -2147483648
2147483647 -2147483648 -65535
-2147483648 2147483647 -65536
-2147483648 -2147483648 65536
2147483647 2147483647 65536
327680 131072 163840
-327680 131072 -163840
16383 1 1073676288
16384 1 2147483647
-16384 1 -2147483648
16384 -1 -2147483648
-16384 -1 2147483647
0 -5 0
100 -200 -32768";

const SLOPES: &str = "\
0 0 2048
0 511 2048
5 511 2048
0 512 0
512 512 2048
1 512 4
256 512 1024
65536 65536 2048
32768 65536 1024
1 65536 0
2147483648 2147483648 0
2147483647 2147483648 511
536870912 2147483648 0
4294967295 4294967295 256
4294967295 512 2048
536870911 4294967295 256
536870912 4294967295 0
1000 1000000 2
0 4294967295 0";

const LENGTHS: &str = "\
0 0 0
65536 0 65536
0 -65536 65536
196608 262144 360448
-196608 262144 360448
262144 -196608 360448
-1 -1 2
-2147483648 0 -2147483648
0 -2147483648 -2147483648
-2147483648 -2147483648 -1073741824
-2147483648 2147483647 -1073741824
2147483647 2147483647 -1073741825
2147483647 -1 -2147483648
5 4 7";

#[test]
fn arithmetic(rt: HostRuntime) -> Result<(), Fail> {
    expect_values(&rt, rt.alloc(), Function::Product, PRODUCTS)?;
    expect_values(&rt, rt.alloc(), Function::Quotient, QUOTIENTS)?;
    expect_values(&rt, rt.alloc(), Function::Slope, SLOPES)?;
    expect_values(&rt, rt.alloc(), Function::Length, LENGTHS)
}

const IMP: Kind = Kind {
    number: 3001,
    flags: 6,
    radius: 20 << 16,
    height: 56 << 16,
    first: 10,
};

const KEY: Kind = Kind {
    number: 5,
    flags: 1,
    radius: 20 << 16,
    height: 16 << 16,
    first: -1,
};

const LAMP: Kind = Kind {
    number: 65535,
    flags: 8,
    radius: 0,
    height: -1,
    first: 0,
};

fn push_kind(file: &mut Vec<u8>, kind: &Kind) -> Result<(), AllocError> {
    file.extend_from_slice(&kind.number.to_le_bytes())?;
    file.extend_from_slice(&kind.flags.to_le_bytes())?;
    file.extend_from_slice(&kind.radius.to_le_bytes())?;
    file.extend_from_slice(&kind.height.to_le_bytes())?;
    file.extend_from_slice(&kind.first.to_le_bytes())
}

/// A table file with three kinds. Sine i is `131 * i - 671088`, arc i is `262144 * i`, and random number i the low
/// byte of `37 * i + 11`.
fn table_file(alloc: Global) -> Result<Vec<u8>, AllocError> {
    let mut file = Vec::from_slice(alloc, b"PTAB\x03\0\0\0")?;
    for i in 0..10240u16 {
        file.extend_from_slice(&(i32::from(i) * 131 - 671088).to_le_bytes())?;
    }
    for i in 0..2049u32 {
        file.extend_from_slice(&(i * 262144).to_le_bytes())?;
    }
    for i in 0..256u32 {
        file.push(((i * 37 + 11) % 256) as u8)?;
    }
    push_kind(&mut file, &IMP)?;
    push_kind(&mut file, &LAMP)?;
    push_kind(&mut file, &KEY)?;
    Ok(file)
}

/// An angle, its sine and its cosine.
const SINES: &str = "\
0 -671088 -402800
524287 -671088 -402800
524288 -670957 -402669
1073741824 -402800 -134512
2147483648 -134512 133776
3221225472 133776 402064
4294967295 401933 670221
12345678 -668075 -399787";

fn expect_sines(rt: &impl Abort, alloc: Global, tables: &PlayTables) -> Result<(), Fail> {
    for line in SINES.lines() {
        let row = numbers(alloc, line)?;
        let angle = word(&row, 0);
        let found = [
            i64::from(tables.sine(angle)),
            i64::from(tables.cosine(angle)),
        ];
        expect(rt, line, &found, behind(&row, 1));
    }
    Ok(())
}

/// A way along x and y, and its angle.
const WAYS: &str = "\
0 0 0
65536 0 0
-65536 0 2147483647
0 65536 1073741823
0 -65536 3221225472
65536 65536 536870911
-65536 65536 1610612736
-65536 -65536 2684354559
65536 -65536 3758096384
262144 65536 134217728
262144 -65536 4160749568
-262144 65536 2013265919
-262144 -65536 2281701376
65536 262144 939524095
65536 -262144 3355443200
-65536 262144 1207959552
-65536 -262144 3087007743
1 0 536870912
0 1 536870911
-1 -1 2684354559
-2147483648 0 2147483647
0 -2147483648 3221225472
-2147483648 -2147483648 3221225471
2147483647 -2147483648 3355181056
-2147483648 2147483647 2013528063
2147483647 2147483647 939524095";

fn expect_angles(rt: &impl Abort, alloc: Global, tables: &PlayTables) -> Result<(), Fail> {
    for line in WAYS.lines() {
        let row = numbers(alloc, line)?;
        let angle = tables.angle_of(int(&row, 0), int(&row, 1));
        expect(rt, line, &[i64::from(angle)], behind(&row, 2));
    }
    Ok(())
}

fn expect_kinds(rt: &impl Abort, tables: &PlayTables) {
    for (number, kind) in [
        (3001, Some(IMP)),
        (5, Some(KEY)),
        (65535, Some(LAMP)),
        (0, None),
        (6, None),
        (3000, None),
    ] {
        assert_eq!(rt; tables.kind_of(number), kind);
    }
}

/// Arcs and random numbers.
fn expect_others(rt: &impl Abort, tables: &PlayTables) {
    let arcs = [tables.arc(0), tables.arc(1), tables.arc(2048)];
    assert_eq!(rt; arcs, [0, 262144, 536870912]);
    let randoms = [
        tables.random(0),
        tables.random(1),
        tables.random(7),
        tables.random(255),
    ];
    assert_eq!(rt; randoms, [11, 48, 14, 230]);
}

#[test]
fn tables_answer(rt: HostRuntime) -> Result<(), Fail> {
    let alloc = rt.alloc();
    let tables = PlayTables::read(alloc, &table_file(alloc)?)?;
    expect_sines(&rt, alloc, &tables)?;
    expect_angles(&rt, alloc, &tables)?;
    expect_kinds(&rt, &tables);
    expect_others(&rt, &tables);
    Ok(())
}
