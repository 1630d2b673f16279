//! The text of the flow of two paths that join.
ghost use Rattle.std.specs.Prelude.{◌≡◌, length, IfOk};

use crate::joined_paths::joined_paths;
use df_dual_check::dual_text::{read_dual, write_dual};
use df_stages::flow::Flow;
use df_values::memory::Memory;
use std::alloc::Global;
use std::test::Fail;

fn joined_flow(alloc: Global) -> Result<Flow, Memory>
    ensures { IfOk result (λ flow. length flow ≡ 5) }
{
    let mut flow = Vec::new(alloc);
    flow.push(2)?;
    flow.push(2)?;
    flow.push(0)?;
    flow.push(2)?;
    flow.push(1)?;
    Ok(Flow::from_vec(flow))
}

#[test]
fn texts_are_written_and_read(rt: HostRuntime) -> Result<(), Fail> {
    let alloc = rt.alloc();
    let s = joined_paths(alloc)?;
    let flow = joined_flow(alloc)?;
    let text = write_dual(alloc, &s, &flow)?;
    let wanted = b"dual 1 5\n1.0 2\n2.0 2\n3.0 0\n3.1 2\n4.0 1\nend\n";
    assert_eq!(rt; text.as_slice(), wanted.as_slice());
    assert_eq!(rt; read_dual(alloc, wanted, &s)?.as_slice(), flow.as_slice());
    Ok(())
}
