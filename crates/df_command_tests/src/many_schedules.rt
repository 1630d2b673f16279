//! One file with a loop, gates and a MERGE, run under some hundred schedules.
use df_io::{MemFiles, MemSink};
use df_top::{Status, valflow};
use df_values::bytes::Bytes;
use df_values::memory::Memory;
use std::alloc::Global;
use std::test::Fail;

const PRODUCTS: &str =
    "dataflow 2 7\n0 IN A integer 3 stage 0 loop 0 ports dests 5.1\n1 MERGE stage 1 loop 1 ports @2 =1 @5 dests 3.1 6.0\n2 CTL 1*true 3*false stage 0 loop 0 ports dests 1.0\n3 TGATE stage 1 loop 1 ports @4 @1 dests 5.0\n4 CTL 3*true 1*false stage 0 loop 0 ports dests 3.0\n5 MUL stage 1 loop 1 ports @3 @0 dests 1.2\n6 OUT 1 4 stage 2 loop 0 ports @1 dests\nend\n";

const REPORT: &str = "drained\nevents 102\nresult 1 = 1 2 6 24\nfired 3 4 4 4 4 3 4\n";

// A hundred choices of a generator, and then enough of the first ones.
fn schedule(alloc: Global, seed: &mut u32) -> Result<Bytes, Memory> {
    let mut text = Bytes::new(alloc);
    for _ in 0..100 {
        *seed = seed.wrapping_mul(1_664_525).wrapping_add(1_013_904_223);
        text.push_number(u64::from(*seed >> 8))?;
        text.push_text(" ")?;
    }
    text.push_text("drain 1000\n")?;
    Ok(text)
}

fn report(alloc: Global, schedule: Bytes) -> Result<(Status, Vec<u8>), Fail> {
    let mut words = Vec::new(alloc);
    for word in ["run", "C", "I", "S"] {
        words.push(String::from_str(alloc, word)?)?;
    }
    let mut files = MemFiles::new(alloc, Vec::new(alloc));
    files.add(
        String::from_str(alloc, "C")?,
        PRODUCTS.as_bytes().to_vec(alloc)?,
    )?;
    files.add(String::from_str(alloc, "I")?, b"A = 2 3 4\n".to_vec(alloc)?)?;
    files.add(String::from_str(alloc, "S")?, schedule.into_vec())?;
    let mut out = MemSink::new(alloc, Vec::new(alloc));
    let status = valflow(alloc, &words, &mut files, &mut out);
    Ok((status, out.contents().to_vec(alloc)?))
}

#[test]
fn three_hundred_schedules_give_one_report(rt: HostRuntime) -> Result<(), Fail> {
    let alloc = rt.alloc();
    let mut seed = 3u32;
    for at in 0..300u32 {
        let (status, out) = report(alloc, schedule(alloc, &mut seed)?)?;
        assert_eq!(rt; out.as_slice(), REPORT.as_bytes(), "at {at}");
        assert_eq!(rt; status, Status::Done, "at {at}");
    }
    Ok(())
}
