//! What the definitions come to. Each of these does nothing at run time.
ghost use Rattle.gv_overlay.specs.Overlays.{ExcludesRefusal, IsOneOverlay};

/// The files have one overlay of a name at most, and where they have one, loading it isn't refused.
pub fn overlay_law()
    ensures loads { ExcludesRefusal }
    ensures one { IsOneOverlay }
{}
