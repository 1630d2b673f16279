//! Schedules as they are printed.
use df_cells::schedules::{Choices, Schedule};
use df_iotext::printing::print_schedule;
use std::test::Fail;

#[test]
fn schedules_are_printed(rt: HostRuntime) -> Result<(), Fail> {
    let empty = Schedule {
        choices: Choices::new(rt.alloc()),
        drain: 0,
    };
    assert_eq!(rt;
        print_schedule(rt.alloc(), &empty)?.as_slice(),
        b"\n".as_slice()
    );
    let mut choices = Choices::new(rt.alloc());
    choices.push(0)?;
    choices.push(4_294_967_295)?;
    let schedule = Schedule { choices, drain: 12 };
    let text = print_schedule(rt.alloc(), &schedule)?;
    assert_eq!(rt; text.as_slice(), b"0 4294967295 drain 12\n".as_slice());
    Ok(())
}
