// The devices in memory, call by call, and the counter.
use doom_edge::{
    Gate, MemShelf, MemSink, NoGate, PushFault, PutFault, Shelf, Sink, Steps, SureSink, TakeFault,
};
use std::alloc::Global;
use std::test::Fail;

fn shelf_of(alloc: Global, takes: &[u64], puts: &[u64]) -> Result<MemShelf, Fail> {
    let mut files = Vec::new(alloc);
    let name = String::from_str(alloc, "MAP")?;
    files.push((name, Vec::from_slice(alloc, b"walls")?))?;
    let fail_takes = Vec::from_slice(alloc, takes)?;
    let fail_puts = Vec::from_slice(alloc, puts)?;
    Ok(MemShelf::new(files, fail_takes, fail_puts))
}

// Listed takes fail, and those of a name that isn't held. All others give the front of the file.
#[test]
fn takes_fail_where_listed(rt: HostRuntime) -> Result<(), Fail> {
    let mut shelf = shelf_of(rt.alloc(), &[1, 4], &[])?;
    let mut into = Vec::from_slice(rt.alloc(), b"old")?;
    let whole: &[u8] = b"walls";
    let cases: [(&str, usize, Option<&[u8]>); 6] = [
        ("MAP", 9, Some(whole)),
        ("MAP", 9, None),
        ("MAP", 5, Some(whole)),
        ("OTHER", 5, None),
        ("MAP", 4, None),
        ("MAP", 4, Some(b"wall")),
    ];
    for (name, most, want) in cases {
        let taken = shelf.take(name, most, &mut into);
        match want {
            Some(bytes) => {
                assert!(rt; taken == Ok(()));
                assert!(rt; into.as_slice() == bytes);
            }
            None => assert!(rt; taken == Err(TakeFault::Failed)),
        }
    }
    Ok(())
}

// Listed puts fail and change nothing. All others bind the name.
#[test]
fn puts_fail_where_listed(rt: HostRuntime) -> Result<(), Fail> {
    let mut shelf = shelf_of(rt.alloc(), &[], &[0, 2])?;
    let cases: [(&str, &[u8], bool, &[u8]); 4] = [
        ("MAP", b"one", false, b"walls"),
        ("MAP", b"two", true, b"two"),
        ("MAP", b"three", false, b"two"),
        ("NEW", b"", true, b"two"),
    ];
    for (name, bytes, succeeds, map) in cases {
        let want = if succeeds {
            Ok(())
        } else {
            Err(PutFault::Failed)
        };
        assert!(rt; shelf.put(name, bytes) == want);
        assert!(rt; shelf.file("MAP") == Some(map));
    }
    assert!(rt; shelf.file("NEW") == Some(b"".as_slice()));
    assert!(rt; shelf.file("NONE").is_none());
    Ok(())
}

// Listed pushes fail and leave the first half of their bytes, rounded down. All others append.
#[test]
fn pushes_fail_where_listed(rt: HostRuntime) -> Result<(), Fail> {
    let mut sink = MemSink::new(rt.alloc(), Vec::from_slice(rt.alloc(), &[1, 3])?);
    let cases: [(&[u8], bool, &[u8]); 5] = [
        (b"ab", true, b"ab"),
        (b"cdefg", false, b"abcd"),
        (b"", true, b"abcd"),
        (b"x", false, b"abcd"),
        (b"h", true, b"abcdh"),
    ];
    for (bytes, succeeds, got) in cases {
        let want = if succeeds {
            Ok(())
        } else {
            Err(PushFault::Failed)
        };
        assert!(rt; sink.push(bytes) == want);
        assert!(rt; sink.bytes() == got);
    }
    Ok(())
}

#[test]
fn a_sure_sink_takes_all(rt: HostRuntime) -> Result<(), Fail> {
    let mut sink = SureSink::new(rt.alloc());
    sink.push(b"one")?;
    sink.push(b"two")?;
    assert!(rt; sink.bytes() == b"onetwo".as_slice());
    Ok(())
}

#[test]
fn steps_are_counted(rt: HostRuntime) {
    let mut steps = Steps::new();
    steps.tic();
    steps.page();
    steps.page();
    let mut more = Steps::new();
    more.tic();
    more.add(steps);
    assert_eq!(rt; more.tics(), 2);
    assert_eq!(rt; more.pages(), 2);
    NoGate.begin(7);
    NoGate.at(0, 7);
}
