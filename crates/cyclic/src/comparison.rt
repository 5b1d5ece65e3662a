//! Whether a slave has the same segments in two plans.

ghost use Rattle.std.specs.Prelude.{◌≡◌, ◌<◌, ◌∷◌, [], length, IfSome, IfNone};
ghost use Rattle.std.specs.Cmp.Lexicographic.{pointwise};
ghost use Rattle.cyclic.specs.Configuration.{segments_of, is_same};

use sii_image::Segment;

/// The first segment of a slave, and all segments after it. None if the slave has none.
fn first_of(slave: u16, segments: &[Segment]) -> Option<(&Segment, &[Segment])>
    ensures some { IfSome result (λ first. segments_of slave segments.now ≡ first.0.now ∷ segments_of slave first.1.now) }
    ensures shorter { IfSome result (λ first. length first.1.now < length segments.now) }
    ensures none { IfNone result (segments_of slave segments.now ≡ []) }
{
    let mut left = segments;
    while let [segment, after @ ..] = left {
        if segment.slave == slave {
            return Some((segment, after));
        }
        left = after;
    }
    None
}

/// Whether a slave has the same segments in both lists, in the same order.
pub(crate) fn has_same_segments(slave: u16, old: &[Segment], new: &[Segment]) -> bool
    ensures { result ≡ pointwise is_same (segments_of slave old.now) (segments_of slave new.now) }
{
    let mut old_left = old;
    let mut new_left = new;
    while let Some((ours, after)) = first_of(slave, old_left) {
        let Some((theirs, others)) = first_of(slave, new_left) else {
            return false;
        };
        if ours != theirs {
            return false;
        }
        old_left = after;
        new_left = others;
    }
    first_of(slave, new_left).is_none()
}
