//! A node at work.
ghost use Rattle.std.specs.Prelude.{◌≡◌, ◌<◌, length, vec_len};
ghost use Rattle.node_plans.specs.Plans.{outs_of, plan_of};

use code_checker::Checked;
use link_streams::{Frames, Relay};

/// A node at work on its streams: the paths of the files that it writes, and room for the frames of a generation.
#[derive(Drop)]
pub struct Relaying<'c, F> {
    pub code: &'c Checked,
    pub pattern: u32,
    pub node: u32,
    pub relay: Relay<F>,
    pub frames: Frames,
    pub outputs: Vec<String>,
    ghost known_pattern: { pattern < length code.now.net.patterns },
    ghost known_node: { node < length code.now.net.nodes },
    ghost plan: { relay ≡ plan_of code.now pattern node },
    ghost links: { frames.links ≡ outs_of code.now pattern node },
    ghost each: { vec_len outputs ≡ length frames.links },
}
