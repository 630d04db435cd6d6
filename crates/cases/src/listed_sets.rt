use crate::{pair, refused, two};
use augmenter::Augmenter;
use augmenter::answers::Answer;
use listed::Listed;
use std::test::Fail;

#[test]
fn makings_refused(rt: HostRuntime) {
    let many = [[0u8; 16]; 257];
    assert_eq!(rt; refused(Listed::new(129, 1 << 40, &many)), Some((5, 0)));
    assert_eq!(rt; refused(Listed::new(2, 1 << 40, &many)), Some((6, 0)));
    assert_eq!(rt; refused(Listed::new(2, 1 << 40, &two())), Some((7, 0)));
    assert_eq!(rt; refused(Listed::new(1, 8, &two())), Some((8, 1)));
    assert_eq!(rt;
        refused(Listed::new(128, (1 << 40) - 1, &many[0..256])),
        None
    );
}

#[test]
fn questions_refused(rt: HostRuntime) -> Result<(), Fail> {
    let set = pair()?;
    let mut out = [9, 9];
    assert_eq!(rt; refused(set.better(&[5], &[2, 0], &mut out)), Some((1, 0)));
    assert_eq!(rt;
        refused(set.better(&[5, -3], &[1, 0], &mut out[0..1])),
        Some((1, 0))
    );
    assert_eq!(rt;
        refused(set.better(&[5, -4], &[1, 3], &mut out)),
        Some((2, 1))
    );
    assert_eq!(rt;
        refused(set.better(&[5, -4], &[1, 1], &mut out)),
        Some((3, 0))
    );
    assert_eq!(rt;
        refused(set.better(&[5, -3], &[1, 1], &mut out)),
        Some((4, 0))
    );
    assert_eq!(rt; out, [9, 9]);
    Ok(())
}

#[test]
fn answers(rt: HostRuntime) -> Result<(), Fail> {
    let set = pair()?;
    let mut out = [9, 9];
    assert_eq!(rt; set.better(&[5, -3], &[0, 1], &mut out)?, Answer::Nothing);
    assert_eq!(rt; out, [9, 9]);
    assert_eq!(rt; set.better(&[5, -3], &[1, 0], &mut out)?, Answer::Found);
    assert_eq!(rt; out, [0, 1]);
    assert_eq!(rt; (set.dimension(), set.reach(), Listed::KIND), (2, 8, b'L'));
    Ok(())
}

#[test]
fn members(rt: HostRuntime) -> Result<(), Fail> {
    let set = pair()?;
    assert!(rt; set.belongs(&[1, 0]));
    assert!(rt; set.belongs(&[0, 1]));
    assert!(rt; !set.belongs(&[1, 1]));
    assert!(rt; !set.belongs(&[2, 0]));
    assert!(rt; !set.belongs(&[1, 0, 0]));
    Ok(())
}

/// A list with no row has no member, and the one point of dimension 0 is a member where it is listed.
#[test]
fn empty_sets(rt: HostRuntime) -> Result<(), Fail> {
    assert!(rt; !Listed::new(2, 8, &[])?.belongs(&[0, 0]));
    assert!(rt; Listed::new(0, 8, &[[0; 16]])?.belongs(&[]));
    assert!(rt; !Listed::new(0, 8, &[])?.belongs(&[]));
    Ok(())
}
