//! The least stages and flow of two paths that join.
use crate::joined_paths::joined_paths;
use df_cancel::balancer::Balancer;
use df_cancel::cancel::Cancel;
use std::test::Fail;

#[test]
fn joined_paths_take_two_buffers(rt: HostRuntime) -> Result<(), Fail> {
    let alloc = rt.alloc();
    let s = joined_paths(alloc)?;
    let found = Cancel.balance(alloc, &s)?;
    assert_eq!(rt; found.stages.as_slice(), [0_i64, 1, 2, 3, 4].as_slice());
    assert_eq!(rt; found.flow.as_slice(), [2_u32, 2, 0, 2, 1].as_slice());
    assert_eq!(rt; found.stages.len(), 5);
    assert!(rt; !found.stages.is_empty());
    Ok(())
}
