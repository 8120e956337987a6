// The layouts of files.
ghost use Rattle.std.specs.Prelude.{◌≡◌};
ghost use Rattle.scans.specs.Layout.{layout_of};

use scans::Layout;

// What a new file begins with.
pub(crate) const START: [u8; 2] = [0x00, 0x82];

// The layout of the file that `s` is, or begins.
#[tactic(auto, unfolding(scans::specs::Layout::layout_of))]
pub fn layout_of(s: &[u8]) -> Layout
    ensures { result ≡ layout_of s.now }
{
    if s.starts_with(&START) {
        Layout::New
    } else {
        Layout::Old
    }
}
