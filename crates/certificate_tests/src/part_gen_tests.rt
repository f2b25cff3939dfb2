//! Made jobs.

use part_file::{Dir, Face, Joint, Side};
use part_gen::made_job;
use std::test::Fail;

/// Whether a flange has this width and length, and stands so.
fn is_flange(face: &Face, width: i64, length: i64, joint: Joint) -> bool {
    face.width == width && face.length == length && face.joint == Some(joint)
}

/// The joint of a flange.
fn joint(on: u8, side: Side, at: i64, dir: Dir) -> Joint {
    Joint { on, side, at, dir }
}

#[test]
fn job_0(rt: HostRuntime) -> Result<(), Fail> {
    let job = made_job(0);
    let faces = job.part().faces.as_slice();
    assert!(rt; job.q() == 1919 && faces.len() == 9);
    assert!(rt; faces[0].width == 100_000 && faces[0].length == 105_000);
    assert!(rt; faces[0].joint.is_none() && faces[8].name.as_str() == "f8");
    assert!(rt;
        is_flange(
            &faces[1],
            96_000,
            20_000,
            joint(0, Side::N, 2000, Dir::Down)
        )
    );
    assert!(rt;
        is_flange(
            &faces[2],
            101_000,
            20_000,
            joint(0, Side::E, 2000, Dir::Down)
        )
    );
    assert!(rt;
        is_flange(
            &faces[3],
            96_000,
            27_000,
            joint(0, Side::S, 2000, Dir::Down)
        )
    );
    assert!(rt; is_flange(&faces[4], 101_000, 20_000, joint(0, Side::W, 2000, Dir::Up)));
    assert!(rt; is_flange(&faces[5], 96_000, 18_000, joint(1, Side::N, 0, Dir::Up)));
    assert!(rt; is_flange(&faces[6], 101_000, 17_000, joint(2, Side::N, 0, Dir::Down)));
    assert!(rt; is_flange(&faces[7], 96_000, 18_000, joint(3, Side::N, 0, Dir::Up)));
    assert!(rt; is_flange(&faces[8], 101_000, 17_000, joint(4, Side::N, 0, Dir::Down)));
    Ok(())
}

#[test]
fn first_jobs(rt: HostRuntime) -> Result<(), Fail> {
    let bends = [8, 7, 6, 7, 8, 8, 6, 6, 8];
    for n in 0..9 {
        let job = made_job(n as u32);
        assert!(rt; job.bends() == bends[n] && job.stages() == 2);
    }
    Ok(())
}

#[test]
fn seed_modulo(rt: HostRuntime) -> Result<(), Fail> {
    let job = made_job(2_147_483_648);
    let faces = job.part().faces.as_slice();
    assert!(rt; faces.len() == 9 && faces[0].length == 105_000 && faces[3].length == 27_000);
    Ok(())
}
