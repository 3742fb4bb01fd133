//! What is true of all arrays.

ghost use Rattle.sq_flat.specs.Held.{BytesHoldValues};

/// Whatever the bytes of arrays are, they hold values.
#[tactic(auto, using(crate::proofs::Holding::bytes_hold_values))]
pub fn bytes_hold_values()
    ensures { BytesHoldValues }
{}
