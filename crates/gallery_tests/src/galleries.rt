//! The bytes of galleries, each file told by its length and a hash.

use gallery_gen::gallery;
use std::alloc::Global;
use std::process::Abort;
use std::test::Fail;

/// The length of a file, and its bytes as the digits of a number to the base 31, in 32 bits.
fn told(bytes: &[u8]) -> (usize, u32) {
    let mut hash = 0u32;
    for byte in bytes {
        hash = hash.wrapping_mul(31).wrapping_add(u32::from(*byte));
    }
    (bytes.len(), hash)
}

fn compare(
    rt: &impl Abort,
    alloc: Global,
    number: u32,
    size: (u32, u32),
    wad: (usize, u32),
    demo: (usize, u32),
) -> Result<(), Fail> {
    let made = gallery(alloc, number)?;
    assert_eq!(rt; (made.rooms, made.tics), size);
    assert_eq!(rt; told(&made.wad), wad);
    assert_eq!(rt; told(&made.tables), (49_436, 3_085_551_087));
    assert_eq!(rt; told(&made.demo), demo);
    Ok(())
}

#[test]
fn gallery_0(rt: HostRuntime) -> Result<(), Fail> {
    let wad = (1318, 2_070_419_308);
    compare(&rt, rt.alloc(), 0, (4, 600), wad, (2414, 271_615_797))
}

#[test]
fn gallery_7(rt: HostRuntime) -> Result<(), Fail> {
    let wad = (1866, 3_117_205_331);
    compare(&rt, rt.alloc(), 7, (6, 800), wad, (3214, 2_461_788_956))
}

#[test]
fn gallery_of_the_greatest_number(rt: HostRuntime) -> Result<(), Fail> {
    let wad = (1318, 1_697_220_056);
    compare(
        &rt,
        rt.alloc(),
        4_294_967_295,
        (4, 600),
        wad,
        (2414, 913_727_157),
    )
}
