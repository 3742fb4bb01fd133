//! What holds of events and what they touch.

ghost use Rattle.sq_touches.specs.ActLaws.{ActsTellDependence};

/// Events whose bytes are shown by acts are independent exactly where the acts don't depend on one another.
pub fn acts_tell_dependence<Cause>()
    ensures { ActsTellDependence Cause }
{}
