// Hyperlinks: src/line.rs, apply_hyperlink.
ghost use Rattle.std.specs.Prelude.{◌≡◌};
ghost use Rattle.drawing.specs.Hyperlink.{linked_to};

use super::attributes::Link;
use super::state::AttributeState;

impl AttributeState {
    // AttributeState::apply_hyperlink.
    pub(crate) fn apply_hyperlink(&mut self, link: Link)
        ensures { self.new ≡ linked_to self.old link }
    {
        self.set_attributes(self.attrs.linked(link));
    }
}
