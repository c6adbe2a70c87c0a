use mw_io::{
    Host, HostFailed, MemHost, MemSink, RealHost, RealSink, SinkFault, SureHost, SureSink,
    read_up_to, write_all,
};
use std::test::Fail;

#[test]
fn a_file_is_read_back(rt: HostRuntime) -> Result<(), Fail> {
    let alloc = rt.alloc();
    for (name, limit, want) in [
        ("a", 9, "hello"),
        ("a", 4, "hello"),
        ("a", 1, "he"),
        ("b", 9, ""),
        ("absent", 9, ""),
    ] {
        let mut host = SureHost::new(alloc);
        host.put("a", b"old")?;
        host.put("b", b"")?;
        host.put("a", b"hello")?;
        assert!(rt; host.open(name).is_ok());
        match read_up_to(alloc, &mut host, limit) {
            Ok(bytes) => assert_eq!(rt; bytes.as_slice(), want.as_bytes(), "{name} up to {limit}"),
            Err(fault) => panic!(rt; "{fault:?}"),
        }
    }
    Ok(())
}

// Which call of a host fails, of an open and two reads, and what comes of it.
#[test]
fn each_call_of_a_host_fails_in_turn(rt: HostRuntime) -> Result<(), Fail> {
    let alloc = rt.alloc();
    for (call, opens, reads) in [
        (0, false, false),
        (1, true, false),
        (2, true, false),
        (3, true, true),
    ] {
        let mut host = MemHost::new(alloc);
        host.put("a", b"hello")?;
        host.fail(call)?;
        assert_eq!(rt; host.open("a").is_ok(), opens);
        if opens {
            assert_eq!(rt; read_up_to(alloc, &mut host, 9).is_ok(), reads);
        }
    }
    let mut host = MemHost::new(alloc);
    assert_eq!(rt; host.open("absent"), Err(HostFailed));
    Ok(())
}

#[test]
fn a_failed_write_takes_nothing(rt: HostRuntime) -> Result<(), Fail> {
    let alloc = rt.alloc();
    let mut sink = MemSink::new(alloc);
    sink.fail(1)?;
    assert_eq!(rt; write_all(&mut sink, b"one"), Ok(()));
    assert_eq!(rt; write_all(&mut sink, b"two"), Err(SinkFault::Failed));
    assert_eq!(rt; sink.as_slice(), b"one".as_slice());
    assert_eq!(rt; write_all(&mut sink, b"three"), Ok(()));
    assert_eq!(rt; sink.as_slice(), b"onethree".as_slice());
    Ok(())
}

#[test]
fn a_sink_keeps_its_bytes(rt: HostRuntime) -> Result<(), Fail> {
    let mut sink = SureSink::new(rt.alloc());
    assert_eq!(rt; write_all(&mut sink, b""), Ok(()));
    assert_eq!(rt; write_all(&mut sink, b"one"), Ok(()));
    assert_eq!(rt; sink.as_slice(), b"one".as_slice());
    Ok(())
}

// The system's own files and output, through the adapters.
#[test]
fn the_system_is_read(rt: HostRuntime) -> Result<(), Fail> {
    let alloc = rt.alloc();
    let mut host = RealHost::new(&rt);
    assert_eq!(rt; host.open("/no/such/file"), Err(HostFailed));
    assert_eq!(rt; host.open("/dev/null"), Ok(()));
    assert!(rt; read_up_to(alloc, &mut host, 9).is_ok());
    let mut sink = RealSink::new(std::io::sink());
    assert_eq!(rt; write_all(&mut sink, b"one"), Ok(()));
    Ok(())
}
