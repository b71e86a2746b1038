//! Rows of labels.
ghost use Rattle.std.specs.Prelude.{◌≡◌, length, replicate};
ghost use Rattle.routes.specs.declared.labels.Label.TheVariants.{Blank};
ghost use Rattle.halves.specs.Labels.{spot};

use fringe::place::Place;
use routes::labels::Label;

/// Blanks every label.
pub fn blank<C: Copy>(labels: &mut [Label<C>])
    ensures { labels.new ≡ replicate (length labels.old) Blank }
{
    labels.fill(Label::Blank);
}

/// The label of a place: past the end of the row all are blank.
pub fn label_at<C: Copy>(labels: &[Label<C>], place: Place) -> Label<C>
    ensures { result ≡ spot labels.now place.0 }
{
    labels
        .get(usize::from(place))
        .copied()
        .unwrap_or(Label::Blank)
}
