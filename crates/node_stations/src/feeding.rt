//! The blocks of a window, fed to the source.
ghost use Rattle.std.specs.Prelude.{◌≡◌, ◌≤◌, ◌+◌, ◌*◌, ◌^◌, length, true};
ghost use Rattle.generation_frame.specs.Blocks.{row_bytes};
ghost use Rattle.relay_node.specs.Relay.{HasNothing};
ghost use Rattle.node_stations.specs.Fed.{AreFed, window_of};

use gf_tables::Field;
use relay_node::Node;

/// Feeds a source that has begun a window its blocks, which stand one after another and have `size` bytes each.
pub fn feed_blocks<F: Field>(
    source: &mut Node<F>,
    first: u32,
    count: u32,
    size: usize,
    blocks: &[u8],
)
    requires source { source.old.plan.is_source ≡ true }
    requires first { source.old.first ≡ first }
    requires count { source.old.count ≡ count }
    requires last { first + count ≤ 2 ^ 32 }
    requires nothing { HasNothing source.old }
    requires size { size ≡ source.old.plan.rate * row_bytes }
    requires blocks { length blocks.now ≡ count * size }
    ensures { AreFed (window_of first count size blocks.now) source.old source.new }
{
    'feeding: for place in 0..count {
        let start = place as usize * size;
        source.feed(first + place, &blocks[start..start + size]);
    }
}
