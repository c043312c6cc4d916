//! The runs of a case, one after the other, for one of its goings.
use crate::running::carry_out;
use case_reader::differences::Differences;
use case_reader::named::Named;
use case_reader::reading::{Lines, is_in_order, read_on, settle};
use case_reader::scene::Scene;
use std::alloc::Global;
use std::thread::Threads;

// Does the run that was taken in, and answers whether it could.
fn do_run<R: Threads + Sync>(
    rt: &R,
    alloc: Global,
    scene: &mut Scene<'_>,
    differences: &mut Differences<'_>,
) -> bool {
    let mut files = Vec::new(alloc);
    let stopped = carry_out(rt, alloc, scene, &mut files, differences);
    settle(alloc, files, scene);
    differences.pass(scene.wanted.run, stopped)
}

/// Goes by the lines of a case, for these values.
pub fn go<R: Threads + Sync>(
    rt: &R,
    alloc: Global,
    case: Lines<'_>,
    values: &[Named],
    scene: &mut Scene<'_>,
    differences: &mut Differences<'_>,
) {
    let mut lines = case;
    if is_in_order(case, differences) {
        for _run in case.lines {
            if !read_on(alloc, &mut lines, values, scene, differences)
                || !do_run(rt, alloc, scene, differences)
            {
                break;
            }
        }
    }
}
