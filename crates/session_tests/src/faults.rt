// Sources, sinks and devices fail, and images have faults.
use crate::calls::{check_call, empty, told};
use std::test::Fail;

const JOB: &str = "create f\n";

#[test]
fn each_fault_has_its_status(rt: HostRuntime) -> Result<(), Fail> {
    for (fails, status, text) in [
        ((1, 0, 0), 5, "read-fault\n"),
        ((0, 1, 0), 6, ""),
        ((0, 0, 1), 4, "stopped\n"),
        ((0, 0, 0), 0, "1 1 done\nend 1 57\n"),
    ] {
        let image = empty(rt.alloc())?;
        check_call(&rt, image, "run", JOB, fails, (status, text))?;
    }
    Ok(())
}

#[test]
fn an_image_with_a_fault_is_refused(rt: HostRuntime) -> Result<(), Fail> {
    let alloc = rt.alloc();
    let zeros = vec![in alloc; 0; 512 * 64]?;
    check_call(
        &rt,
        zeros,
        "run",
        JOB,
        (0, 0, 0),
        (3, "refused not-an-image\n"),
    )?;
    Ok(())
}

#[test]
fn a_stopped_run_leaves_a_sound_image(rt: HostRuntime) -> Result<(), Fail> {
    for fence in 1..9 {
        let image = empty(rt.alloc())?;
        let (_, _, left) = crate::calls::ended(
            &rt,
            rt.alloc(),
            image,
            "run",
            "create f\nwrite f 0 61\nclient 2\ncreate g\nremove g\n",
            (0, 0, fence),
        )?;
        let (text, _) = told(rt.alloc(), left, "check")?;
        assert!(rt; text.starts_with(b"ok ".as_slice()), "fence {fence}");
    }
    Ok(())
}
