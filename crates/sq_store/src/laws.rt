//! What the walk over a draft's scopes gives its buffers.

ghost use Rattle.sq_store.specs.Laws.{WalkLays, OffsetsAre, OffsetsAreAsMany};

/// Where each buffer stands behind the same others of its level wherever a scope names it, the walk lays the buffers
/// behind one another, each at the sum of the sizes of those that it stands behind. Each buffer has an offset.
pub fn the_walk_lays_buffers()
    ensures lays { WalkLays }
    ensures offsets { OffsetsAre }
    ensures many { OffsetsAreAsMany }
{}
