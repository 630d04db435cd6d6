use crate::parts::*;
use planning::answer::bytes;
use planning::answering::answer;
use std::alloc::{AllocError, Global};
use std::test::Fail;

/// What a script of parts is answered.
fn answered(heap: Global, parts: &[&[u8]]) -> Result<Vec<u8>, AllocError> {
    let script = joined(heap, parts)?;
    bytes(&answer(script.as_slice())).to_vec(heap)
}

#[test]
fn two_rows(rt: HostRuntime) -> Result<(), Fail> {
    let plan = answered(rt.alloc(), &[N2, L, P10, P01, C0, C1, S10, Z])?;
    assert_eq!(rt;
        plan.as_slice(),
        b"KLN\x02J\0\0\0\x01X\x02\0\0\0\0\0\0\0\0\0\0\0\0\0\0\0M\xff\xff\xff\xff\xff\xff\xff\xfdQ\0\0\0\x04I\0\0\0\x01Z".as_slice()
    );
    Ok(())
}

#[test]
fn no_coordinate(rt: HostRuntime) -> Result<(), Fail> {
    let p = b"P\0\0\0\0\0\0\0\0\0\0\0\0\0\0\0\0";
    let s = b"S\0\0\0\0\0\0\0\0\0\0\0\0\0\0\0\0";
    let plan = answered(rt.alloc(), &[b"N\0", L, p, s, Z])?;
    assert_eq!(rt;
        plan.as_slice(),
        b"KLN\0J\0\0\0\x01X\0\0\0\0\0\0\0\0\0\0\0\0\0\0\0\0M\0\0\0\0\0\0\0\0Q\0\0\0\0I\0\0\0\0Z".as_slice()
    );
    Ok(())
}

/// A later price replaces the earlier, a price by class is units times days, and a price that is not named is 0.
#[test]
fn prices(rt: HostRuntime) -> Result<(), Fail> {
    let plan = answered(
        rt.alloc(),
        &[N2, L, P10, P01, C0, b"Y\0h\0\0\0\x02", S10, Z],
    )?;
    assert_eq!(rt;
        plan.as_slice(),
        b"KLN\x02J\0\0\0\x01X\x02\0\0\0\0\0\0\0\0\0\0\0\0\0\0\0M\0\0\0\0\0\0\0\0Q\0\0\0\x05I\0\0\0\x01Z".as_slice()
    );
    let stays = answered(
        rt.alloc(),
        &[
            N2,
            L,
            P10,
            P01,
            b"Y\0d\0\0\0\x02",
            b"C\0\xff\xff\xff\xff\xff\xff\xff\xfe",
            S10,
            Z,
        ],
    )?;
    assert_eq!(rt;
        stays.as_slice(),
        b"KLN\x02J\0\0\0\x01X\x01\0\0\0\0\0\0\0\0\0\0\0\0\0\0\0M\xff\xff\xff\xff\xff\xff\xff\xfeQ\0\0\0\x02I\0\0\0\0Z".as_slice()
    );
    Ok(())
}
