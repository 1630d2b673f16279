//! Cell files with one thing changed: refused, or the same bytes when written again.
use df_celltext::reader::{CellTextAnswer, read_cells};
use df_celltext::writer::write_cells;
use df_values::memory::Memory;
use std::alloc::Global;
use std::test::Fail;

const LOOP: &str =
    "dataflow 2 7\n0 IN A integer 3 stage 0 loop 0 ports dests 5.1\n1 MERGE stage 1 loop 1 ports @2 =1 @5!true dests 3.1 6.0\n2 CTL 1*true 3*false stage 0 loop 0 ports dests 1.0\n3 TGATE stage 1 loop 1 ports @4 @1 dests 5.0\n4 CTL 3*true 1*false stage 0 loop 0 ports dests 3.0\n5 MUL stage 1 loop 1 ports @3 @0 dests 1.2\n6 OUT 1 4 stage 2 loop 0 ports @1 dests\nend\n";

const SOURCES: &str =
    "dataflow 2 4\n0 IDX -9223372036854775808 9 stage 7 loop 0 ports dests 3.0\n1 CTL 2*-7 1*undef stage 0 loop 0 ports dests 3.1\n2 IN if_9 boolean 0 stage 0 loop 0 ports dests\n3 MIN stage 2 loop 0 ports @0 @1 dests\nend\n";

// Refused, or read and written again as the same bytes.
#[derive(Clone, Copy, PartialEq, Eq, Debug)]
enum Again {
    Refused(u32),
    Same,
    Other,
}

fn read_and_written(alloc: Global, text: &[u8]) -> Result<Again, Memory> {
    let cells = match read_cells(alloc, text) {
        Ok(cells) => cells,
        Err(CellTextAnswer::BadCellText(line)) => return Ok(Again::Refused(line)),
        Err(CellTextAnswer::Memory) => return Err(Memory),
    };
    let written = write_cells(alloc, &cells)?;
    if written.as_slice() == text {
        Ok(Again::Same)
    } else {
        Ok(Again::Other)
    }
}

// How many line feeds stand in the text.
fn line_feeds(text: &[u8]) -> u32 {
    let mut count = 0u32;
    for byte in text {
        if *byte == b'\n' {
            count = count.saturating_add(1);
        }
    }
    count
}

#[test]
fn each_cut_is_refused_at_its_line(rt: HostRuntime) -> Result<(), Fail> {
    let alloc = rt.alloc();
    for text in [LOOP, SOURCES] {
        assert_eq!(rt; read_and_written(alloc, text.as_bytes())?, Again::Same);
        for (at, _) in text.as_bytes().iter().enumerate() {
            let front = &text.as_bytes()[..at];
            let line = line_feeds(front).saturating_add(1);
            assert_eq!(rt;
                read_and_written(alloc, front)?,
                Again::Refused(line),
                "at {at}"
            );
        }
    }
    Ok(())
}

#[test]
fn changed_bytes_are_refused_or_come_back(rt: HostRuntime) -> Result<(), Fail> {
    let alloc = rt.alloc();
    let mut seed = 13u32;
    let mut refused = 0u32;
    for text in [LOOP, SOURCES] {
        let mut changed = text.as_bytes().to_vec(alloc)?;
        for (at, byte) in text.as_bytes().iter().enumerate() {
            for _ in 0..3 {
                seed = seed.wrapping_mul(1_664_525).wrapping_add(1_013_904_223);
                if let Some(it) = changed.get_mut(at) {
                    *it = (seed >> 24) as u8;
                }
                let found = read_and_written(alloc, changed.as_slice())?;
                assert!(rt; found != Again::Other, "at {at}");
                if found != Again::Same {
                    refused = refused.saturating_add(1);
                }
            }
            if let Some(it) = changed.get_mut(at) {
                *it = *byte;
            }
        }
    }
    assert!(rt; refused > 1000, "refused {refused}");
    Ok(())
}

// The text with one of its lines, counted from 1, so many times.
fn with_line(alloc: Global, text: &str, number: u32, times: u32) -> Result<Vec<u8>, Memory> {
    let mut changed = Vec::new(alloc);
    let mut line = Vec::new(alloc);
    let mut current = 1u32;
    for byte in text.as_bytes() {
        line.push(*byte)?;
        if *byte == b'\n' {
            let count = if current == number { times } else { 1 };
            for _ in 0..count {
                changed.extend_from_slice(line.as_slice())?;
            }
            line.clear();
            current = current.saturating_add(1);
        }
    }
    Ok(changed)
}

#[test]
fn lines_dropped_or_doubled_are_refused(rt: HostRuntime) -> Result<(), Fail> {
    let alloc = rt.alloc();
    for text in [LOOP, SOURCES] {
        for number in 1..=line_feeds(text.as_bytes()) {
            let same = with_line(alloc, text, number, 1)?;
            assert_eq!(rt; read_and_written(alloc, same.as_slice())?, Again::Same);
            let dropped = with_line(alloc, text, number, 0)?;
            assert_eq!(rt;
                read_and_written(alloc, dropped.as_slice())?,
                Again::Refused(number)
            );
            let doubled = with_line(alloc, text, number, 2)?;
            let next = number.saturating_add(1);
            assert_eq!(rt;
                read_and_written(alloc, doubled.as_slice())?,
                Again::Refused(next)
            );
        }
    }
    Ok(())
}
