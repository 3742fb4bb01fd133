//! What holds of views and their areas.

ghost use Rattle.sq_areas.specs.Viewed.{ViewsAreAreas};

/// The bytes of a view are those of an area with its extents and strides.
pub fn views_are_areas()
    ensures { ViewsAreAreas }
{}
