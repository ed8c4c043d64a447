//! Shelves and sinks, in memory and over files.
use shelf_io::*;
use std::fs;
use std::test::Fail;

#[test]
fn a_shelf_in_memory(rt: HostRuntime) -> Result<(), Fail> {
    let alloc = rt.alloc();
    let mut shelf = MemoryShelf::new(alloc);
    shelf.put("n", b"ab")?;
    assert_eq!(rt; shelf.load(alloc, "n", Some(1))?, Loaded::TooLong);
    let loaded = shelf.load(alloc, "n", None)?;
    assert_eq!(rt; loaded, Loaded::Bytes(b"ab".to_vec(alloc)?));
    assert_eq!(rt; shelf.load(alloc, "m", None)?, Loaded::Missing);
    shelf.fail_at(4)?;
    assert_eq!(rt; shelf.write(alloc, "m", b"c"), Err(WriteFault::Failed));
    assert_eq!(rt; shelf.fault_count(), 1);
    assert!(rt; shelf.get("m").is_none());
    assert_eq!(rt; shelf.write(alloc, "m", b"c"), Ok(()));
    assert_eq!(rt; shelf.get("m"), Some(b"c".as_slice()));
    Ok(())
}

#[test]
fn a_sink_in_memory(rt: HostRuntime) -> Result<(), Fail> {
    let mut sink = MemorySink::new(rt.alloc(), 3, 8)?;
    assert_eq!(rt; sink.put(b"abcd"), Ok(3));
    sink.fail_at(2)?;
    assert_eq!(rt; sink.put(b"d"), Err(SinkFailed));
    assert_eq!(rt; sink.fault_count(), 1);
    assert_eq!(rt; sink.bytes(), b"abc".as_slice());
    Ok(())
}

#[test]
fn the_real_files(rt: HostRuntime) -> Result<(), Fail> {
    let alloc = rt.alloc();
    let mut shelf = FileShelf::new(&rt);
    assert_eq!(rt; shelf.load(alloc, "shelf_io_test", None)?, Loaded::Missing);
    shelf.write(alloc, "shelf_io_test", b"abc")?;
    shelf.write(alloc, "shelf_io_test", b"ab")?;
    assert_eq!(rt;
        shelf.load(alloc, "shelf_io_test", Some(1))?,
        Loaded::TooLong
    );
    let loaded = shelf.load(alloc, "shelf_io_test", Some(2))?;
    assert_eq!(rt; loaded, Loaded::Bytes(b"ab".to_vec(alloc)?));
    assert_eq!(rt;
        shelf.load(alloc, "shelf_io_test/x", None),
        Err(LoadFault::Failed)
    );
    assert_eq!(rt; shelf.load(alloc, "..", None), Err(LoadFault::Failed));
    fs::remove_file(&rt, "shelf_io_test")?;
    Ok(())
}

#[test]
fn a_stream(rt: HostRuntime) -> Result<(), Fail> {
    let alloc = rt.alloc();
    let file = fs::create(&rt, "shelf_io_stream")?;
    let mut sink = StreamSink::new(file);
    assert_eq!(rt; sink.put(b"ab"), Ok(2));
    assert_eq!(rt;
        fs::read(&rt, "shelf_io_stream")?.as_slice(),
        b"ab".as_slice()
    );
    let mut closed = StreamSink::new(fs::open(&rt, "shelf_io_stream")?);
    assert_eq!(rt; closed.put(b"c"), Err(SinkFailed));
    fs::remove_file(&rt, "shelf_io_stream")?;
    let _ = alloc;
    Ok(())
}
