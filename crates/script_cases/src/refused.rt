use crate::parts::*;
use std::test::Fail;

#[test]
fn unknown_letters(rt: HostRuntime) -> Result<(), Fail> {
    assert_eq!(rt; refusal(b"?"), Some((19, 0)));
    assert_eq!(rt; refusal(b"n\x02"), Some((19, 0)));
    assert_eq!(rt; refused(rt.alloc(), &[N2, b"\0"])?, Some((19, 2)));
    assert_eq!(rt; refused(rt.alloc(), &[N2, L, P10, b"p"])?, Some((19, 28)));
    Ok(())
}

#[test]
fn cut_short(rt: HostRuntime) -> Result<(), Fail> {
    assert_eq!(rt; refusal(b"N"), Some((20, 0)));
    assert_eq!(rt;
        refused(rt.alloc(), &[N2, b"L\0\0\0\xff\xff\xff\xff"])?,
        Some((20, 2))
    );
    assert_eq!(rt; refused(rt.alloc(), &[N2, L, b"P\x01"])?, Some((20, 11)));
    // the operand is looked at before the order
    assert_eq!(rt; refusal(b"E\x01"), Some((20, 0)));
    Ok(())
}

#[test]
fn too_long(rt: HostRuntime) -> Result<(), Fail> {
    let mut script = vec![in rt.alloc(); b'?'; 65_537]?;
    assert_eq!(rt; refusal(script.as_slice()), Some((20, 65_536)));
    script.truncate(65_536);
    assert_eq!(rt; refusal(script.as_slice()), Some((19, 0)));
    Ok(())
}

#[test]
fn out_of_order(rt: HostRuntime) -> Result<(), Fail> {
    assert_eq!(rt; refused(rt.alloc(), &[L])?, Some((21, 0)));
    assert_eq!(rt; refused(rt.alloc(), &[N2, N2])?, Some((21, 2)));
    assert_eq!(rt; refused(rt.alloc(), &[N2, S10])?, Some((21, 2)));
    assert_eq!(rt; refused(rt.alloc(), &[N2, L, C0, P10])?, Some((21, 21)));
    assert_eq!(rt; refused(rt.alloc(), &[N2, L, S10, S10])?, Some((21, 28)));
    assert_eq!(rt; refused(rt.alloc(), &[N2, L, Z])?, Some((21, 11)));
    // letters of plans, and of sets that are not there yet
    assert_eq!(rt; refusal(b"KL"), Some((21, 0)));
    assert_eq!(rt; refused(rt.alloc(), &[N2, b"F\x02"])?, Some((21, 2)));
    assert_eq!(rt; refused(rt.alloc(), &[N2, L, b"U\0"])?, Some((21, 11)));
    Ok(())
}

#[test]
fn ends(rt: HostRuntime) -> Result<(), Fail> {
    assert_eq!(rt; refusal(b""), Some((21, 0)));
    assert_eq!(rt; refused(rt.alloc(), &[N2])?, Some((21, 2)));
    assert_eq!(rt; refused(rt.alloc(), &[N2, L, P10, S10])?, Some((21, 45)));
    assert_eq!(rt;
        refused(rt.alloc(), &[N2, L, P10, S10, Z, b"?"])?,
        Some((21, 46))
    );
    assert_eq!(rt;
        refused(rt.alloc(), &[N2, L, P10, S10, Z, Z])?,
        Some((21, 46))
    );
    Ok(())
}

#[test]
fn counts(rt: HostRuntime) -> Result<(), Fail> {
    assert_eq!(rt; refusal(b"N\x81"), Some((5, 0)));
    assert_eq!(rt; refusal(b"N\xff"), Some((5, 0)));
    assert_eq!(rt;
        refused(rt.alloc(), &[N2, b"L\0\0\x01\0\0\0\0\0"])?,
        Some((7, 2))
    );
    assert_eq!(rt;
        refused(rt.alloc(), &[N2, b"L\xff\xff\xff\xff\xff\xff\xff\xff"])?,
        Some((7, 2))
    );
    // the largest dimension and reach are taken, so only the end is missing
    assert_eq!(rt; refused(rt.alloc(), &[b"N\x80", L])?, Some((21, 11)));
    Ok(())
}

#[test]
fn classes(rt: HostRuntime) -> Result<(), Fail> {
    assert_eq!(rt;
        refused(rt.alloc(), &[N2, L, b"Y\0x\0\0\0\x01"])?,
        Some((22, 11))
    );
    assert_eq!(rt;
        refused(rt.alloc(), &[N2, L, b"Y\0D\0\0\0\x01"])?,
        Some((22, 11))
    );
    // the class is looked at before the coordinate
    assert_eq!(rt;
        refused(rt.alloc(), &[N2, L, b"Y\x02x\0\0\0\x01"])?,
        Some((22, 11))
    );
    assert_eq!(rt;
        refused(rt.alloc(), &[N2, L, b"Y\x02d\0\0\0\x01"])?,
        Some((8, 11))
    );
    Ok(())
}

#[test]
fn out_of_range(rt: HostRuntime) -> Result<(), Fail> {
    let p001 = b"P\x04\0\0\0\0\0\0\0\0\0\0\0\0\0\0\0";
    let s_last = b"S\0\0\0\0\0\0\0\0\0\0\0\0\0\0\0\x80";
    assert_eq!(rt;
        refused(rt.alloc(), &[N2, L, b"C\x02\0\0\0\0\0\0\0\x05"])?,
        Some((8, 11))
    );
    assert_eq!(rt; refused(rt.alloc(), &[N2, L, P10, p001])?, Some((8, 28)));
    assert_eq!(rt; refused(rt.alloc(), &[N2, L, P10, s_last])?, Some((8, 28)));
    Ok(())
}

#[test]
fn full(rt: HostRuntime) -> Result<(), Fail> {
    let mut script = joined(rt.alloc(), &[N2, L])?;
    for _ in 0..256 {
        script.extend_from_slice(P10)?;
    }
    assert_eq!(rt; refusal(script.as_slice()), Some((21, 4363)));
    script.extend_from_slice(P01)?;
    assert_eq!(rt; refusal(script.as_slice()), Some((18, 4363)));
    script.extend_from_slice(Z)?;
    assert_eq!(rt; refusal(script.as_slice()), Some((18, 4363)));
    Ok(())
}

#[test]
fn beginnings(rt: HostRuntime) -> Result<(), Fail> {
    let reach_7 = b"L\0\0\0\0\0\0\0\x07";
    let reach_8 = b"L\0\0\0\0\0\0\0\x08";
    assert_eq!(rt;
        refused(rt.alloc(), &[N2, reach_7, P10, C0, C1, S10, Z])?,
        Some((3, 0))
    );
    assert_eq!(rt;
        refused(rt.alloc(), &[N2, reach_7, P01, C0, C1, S10, Z])?,
        Some((3, 0))
    );
    assert_eq!(rt;
        refused(rt.alloc(), &[N2, reach_8, P10, C0, C1, S10, Z])?,
        None
    );
    assert_eq!(rt;
        refused(rt.alloc(), &[N2, reach_8, P01, C0, C1, S10, Z])?,
        Some((4, 0))
    );
    assert_eq!(rt; refused(rt.alloc(), &[N2, L, S10, Z])?, Some((4, 0)));
    Ok(())
}
