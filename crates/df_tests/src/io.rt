//! The public calls over memory, with each call failing in turn, and the adapters over the system.
ghost use Rattle.std.specs.Prelude.{◌≡◌, IfOk};
ghost use Rattle.df_io.specs.MemFiles.{mode_of};
ghost use Rattle.df_io.specs.declared.files.FileMode.{FileMode};

use df_io::{
    Fault, MemFiles, MemSink, ReadAnswer, RealFiles, StdSink, read_all, write_file, write_out,
};
use std::alloc::Global;
use std::test::Fail;
use std::{env, fs, process};

// A file of so many bytes is read in two pieces, so its calls are: open, read, read, read at the end, close.
const LENGTH: usize = 5000;

// Files in memory, one of which has that name and that length.
fn files_with_one(alloc: Global, name: &String, fails: Vec<u64>) -> Result<MemFiles, Fail>
    ensures { IfOk result (λ files. mode_of files ≡ FileMode.Idle) }
{
    let mut files = MemFiles::new(alloc, fails);
    files.add(name.clone()?, vec![in alloc; 7; LENGTH]?)?;
    Ok(files)
}

#[test]
fn reads_a_whole_file_or_tells_the_fault(rt: HostRuntime) -> Result<(), Fail> {
    let alloc = rt.alloc();
    let name = String::from_str(alloc, "IN")?;
    for (call, limit, want) in [
        (0, 5000, Err(ReadAnswer::ReadFault)),
        (1, 5000, Err(ReadAnswer::ReadFault)),
        (2, 5000, Err(ReadAnswer::ReadFault)),
        (3, 5000, Err(ReadAnswer::ReadFault)),
        (4, 5000, Err(ReadAnswer::ReadFault)),
        (5, 5000, Ok(LENGTH)),
        (2, 4999, Err(ReadAnswer::ReadFault)),
        (3, 4999, Err(ReadAnswer::TooLong)),
        (4, 4999, Err(ReadAnswer::TooLong)),
    ] {
        let mut files = files_with_one(alloc, &name, vec![in alloc; call]?)?;
        let read = read_all(alloc, &mut files, &name, limit).map(|bytes| bytes.len());
        assert_eq!(rt; read, want, "call {call}, limit {limit}");
    }
    let mut none = MemFiles::new(alloc, Vec::new(alloc));
    let read = read_all(alloc, &mut none, &name, 5000).map(|bytes| bytes.len());
    assert_eq!(rt; read, Err(ReadAnswer::Absent));
    Ok(())
}

#[test]
fn writes_a_whole_file_or_tells_the_fault(rt: HostRuntime) -> Result<(), Fail> {
    let alloc = rt.alloc();
    let name = String::from_str(alloc, "OUT")?;
    for (call, want, bytes) in [
        (0, Err(Fault::Failed), None),
        (1, Err(Fault::Failed), Some(b"".as_slice())),
        (2, Err(Fault::Failed), Some(b"text".as_slice())),
        (3, Ok(()), Some(b"text".as_slice())),
    ] {
        let mut files = MemFiles::new(alloc, vec![in alloc; call]?);
        let written = write_file(&mut files, &name, b"text");
        assert_eq!(rt; written, want, "call {call}");
        assert_eq!(rt; files.contents(&name), bytes, "call {call}");
    }
    Ok(())
}

#[test]
fn writes_out_or_tells_the_fault(rt: HostRuntime) -> Result<(), Fail> {
    let alloc = rt.alloc();
    let mut out = MemSink::new(alloc, vec![in alloc; 1]?);
    assert_eq!(rt; write_out(&mut out, b"line\n"), Ok(()));
    assert_eq!(rt; write_out(&mut out, b"more\n"), Err(Fault::Failed));
    assert_eq!(rt; write_out(&mut out, b"last\n"), Ok(()));
    assert_eq!(rt; out.contents(), b"line\nlast\n".as_slice());
    Ok(())
}

#[test]
fn the_system_is_read_and_written(rt: HostRuntime) -> Result<(), Fail> {
    let alloc = rt.alloc();
    let mut files = RealFiles::new(&rt);
    let id = process::id(rt.process());
    let path = format!(in alloc; "{}/df_io_{id}", env::temp_dir(&rt)?.display())?;
    assert_eq!(rt; write_file(&mut files, &path, b"text"), Ok(()));
    let read = read_all(alloc, &mut files, &path, 4);
    fs::remove_file(&rt, path.as_str())?;
    assert_eq!(rt; read?.as_slice(), b"text".as_slice());
    let read = read_all(alloc, &mut files, &path, 4).map(|bytes| bytes.len());
    assert_eq!(rt; read, Err(ReadAnswer::ReadFault), "a name that isn't there");

    let folder = String::from_str(alloc, "/")?;
    let read = read_all(alloc, &mut files, &folder, 4).map(|bytes| bytes.len());
    assert_eq!(rt; read, Err(ReadAnswer::ReadFault), "a folder");
    assert_eq!(rt;
        write_file(&mut files, &folder, b"text"),
        Err(Fault::Failed)
    );

    let mut out = StdSink::new(&rt);
    assert_eq!(rt; write_out(&mut out, b"written\n"), Ok(()));
    Ok(())
}
